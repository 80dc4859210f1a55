// Expressions, read with a stack of what is still open: parentheses and operators may nest deeply, and the host's stack is small.
use crate::cursor::Cursor;
use crate::fault::Fault;
use crate::precedence::{Precedence, binds, operator};
use crate::tree::{Expr, ExprId, Name, Operator, Span, append};
use lexer::{Keyword, Sign, Token};

// No arguments.
const NOTHING: Span = Span { start: 0, end: 0 };

#[derive(Clone, Copy)]
enum Callee {
    Constructor(Name),
    Function(Name),
}

// What is open left of the next operand.
#[derive(Drop)]
enum Pending {
    Paren,
    BoxOf,
    Left(Operator, ExprId),
    Arguments(Callee, Vec<ExprId>),
}

// An expression that is being read. An operand is none where something was opened before it.
#[derive(Drop)]
struct Reading<'c, 't> {
    cursor: &'c mut Cursor<'t>,
    pending: Vec<Pending>,
}

impl<'c, 't> Reading<'c, 't> {
    fn whole(&mut self, one: Expr) -> Result<Option<ExprId>, Fault> {
        self.cursor.expr(one).map(Some)
    }

    fn open(&mut self, one: Pending) -> Result<Option<ExprId>, Fault> {
        self.pending.push(one)?;
        Ok(None)
    }

    // A name: a variable, or a call whose arguments are still to come.
    fn after_lower(&mut self, name: Name) -> Result<Option<ExprId>, Fault> {
        if !self.cursor.accept(Token::Mark(Sign::LeftParen)) {
            return self.whole(Expr::Variable(name));
        }
        if self.cursor.accept(Token::Mark(Sign::RightParen)) {
            return self.whole(Expr::Call(name, NOTHING));
        }
        self.arguments(Callee::Function(name))
    }

    fn after_upper(&mut self, name: Name) -> Result<Option<ExprId>, Fault> {
        if !self.cursor.accept(Token::Mark(Sign::LeftParen)) {
            return self.whole(Expr::Construct(name, NOTHING));
        }
        self.arguments(Callee::Constructor(name))
    }

    fn arguments(&mut self, callee: Callee) -> Result<Option<ExprId>, Fault> {
        let none = Vec::new(self.cursor.heap);
        self.open(Pending::Arguments(callee, none))
    }

    // Behind &.
    fn loan(&mut self) -> Result<Option<ExprId>, Fault> {
        if self.cursor.accept(Token::Reserved(Keyword::Mut)) {
            let name = self.cursor.lower()?;
            self.whole(Expr::Lend(name))
        } else {
            let name = self.cursor.lower()?;
            self.whole(Expr::Share(name))
        }
    }

    // Behind *.
    fn load(&mut self) -> Result<Option<ExprId>, Fault> {
        let name = self.cursor.lower()?;
        self.whole(Expr::Load(name))
    }

    fn operand(&mut self) -> Result<Option<ExprId>, Fault> {
        match self.cursor.next()? {
            Token::Number(value) => self.whole(Expr::Number(value)),
            Token::Lower(name) => self.after_lower(name),
            Token::Upper(name) => self.after_upper(name),
            Token::Mark(Sign::LeftParen) => self.open(Pending::Paren),
            Token::Mark(Sign::Star) => self.load(),
            Token::Mark(Sign::And) => self.loan(),
            Token::Reserved(Keyword::Get) => self.whole(Expr::Get),
            Token::Reserved(Keyword::Box) => self.open(Pending::BoxOf),
            Token::Mark(_) | Token::Reserved(_) | Token::BadNumber | Token::Other => Err(
                Fault::NoText,
            ),
        }
    }

    // Joins the operand with what is open and binds at least so tightly.
    fn fold(&mut self, least: Precedence, operand: ExprId) -> Result<ExprId, Fault> {
        let mut whole = operand;
        while let Some(open) = self.pending.last() {
            let joined = match open {
                Pending::BoxOf => Expr::Boxed(whole),
                Pending::Left(op, left) if binds(*op) >= least => Expr::Binary(*op, *left, whole),
                Pending::Left(_, _) | Pending::Paren | Pending::Arguments(_, _) => break,
            };
            self.pending.pop();
            whole = self.cursor.expr(joined)?;
        }
        Ok(whole)
    }

    // Whether a comparison waits for its right side.
    fn compares(&self) -> bool {
        matches!(self.pending.last(), Some(Pending::Left(op, _)) if binds(*op) == Precedence::Comparison)
    }

    // Behind an operand: an operator that takes it as its left side; none where there is no such.
    fn as_left(&mut self, whole: ExprId) -> Result<Option<ExprId>, Fault> {
        let Some(op) = operator(self.cursor.peek()) else {
            return Ok(Some(whole));
        };
        let least = binds(op);
        let left = self.fold(least.max(Precedence::Sum), whole)?;
        if least == Precedence::Comparison && self.compares() {
            return Ok(Some(left));
        }
        self.cursor.skip();
        self.open(Pending::Left(op, left))
    }

    fn applied(&mut self, callee: Callee, items: &[ExprId]) -> Result<ExprId, Fault> {
        let span = append(&mut self.cursor.nodes.args, items)?;
        self.cursor.expr(match callee {
            Callee::Constructor(name) => Expr::Construct(name, span),
            Callee::Function(name) => Expr::Call(name, span),
        })
    }

    // What was opened last gets its value: the operand that this makes, or none where another argument follows.
    fn close(&mut self, top: Pending, value: ExprId) -> Result<Option<ExprId>, Fault> {
        match top {
            Pending::Paren => {
                self.cursor.expect(Token::Mark(Sign::RightParen))?;
                Ok(Some(value))
            }
            Pending::Arguments(callee, mut done) => {
                done.push(value)?;
                if self.cursor.accept(Token::Mark(Sign::Comma)) {
                    return self.open(Pending::Arguments(callee, done));
                }
                self.cursor.expect(Token::Mark(Sign::RightParen))?;
                self.applied(callee, done.as_slice()).map(Some)
            }
            Pending::BoxOf => self.whole(Expr::Boxed(value)),
            Pending::Left(op, left) => self.whole(Expr::Binary(op, left, value)),
        }
    }

    // Goes on behind an operand: the whole expression, or none where a further operand is to come.
    fn behind(&mut self, first: ExprId) -> Result<Option<ExprId>, Fault> {
        let mut whole = first;
        // Counted: it ends by the text, as lib.rt says.
        for _ in 0..u64::MAX {
            let Some(value) = self.as_left(whole)? else {
                return Ok(None);
            };
            let value = self.fold(Precedence::Comparison, value)?;
            let Some(top) = self.pending.pop() else {
                return Ok(Some(value));
            };
            let Some(operand) = self.close(top, value)? else {
                return Ok(None);
            };
            whole = operand;
        }
        Err(Fault::TooDeep)
    }
}

pub fn expression(cursor: &mut Cursor) -> Result<ExprId, Fault> {
    let mut reading = Reading {
        pending: Vec::new(cursor.heap),
        cursor,
    };
    // Counted: it ends by the text, as lib.rt says.
    for _ in 0..u64::MAX {
        if let Some(first) = reading.operand()? {
            if let Some(whole) = reading.behind(first)? {
                return Ok(whole);
            }
        }
    }
    Err(Fault::TooDeep)
}
