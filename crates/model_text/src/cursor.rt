// The tokens that are still to be read, and what was made of those before them.
use crate::fault::Fault;
use crate::tree::{Expr, ExprId, Name, Nodes};
use lexer::{Keyword, Lexer, Sign, Token};
use std::alloc::Global;
use std::collections::BTreeMap;

// So many names are kept at hand.
const RECENT: usize = 64;

// Where a name is at hand, by its length, first and last byte.
fn recent_place(spelling: &[u8]) -> usize {
    let first = spelling.first().map_or(0, |b| usize::from(*b));
    let last = spelling.last().map_or(0, |b| usize::from(*b));
    (first + 3 * last + spelling.len() % RECENT) % RECENT
}

#[derive(Drop)]
pub struct Cursor<'t> {
    pub heap: Global,
    lexer: Lexer<'t>,
    // of each name that was read, by its length and spelling: where it first stands. The length comes first, so that long names of
    // different lengths aren't compared byte by byte
    names: BTreeMap<(usize, &'t [u8]), Name>,
    // those of them that were read last: most names are read again soon
    recent: Vec<Option<(&'t [u8], Name)>>,
    pub nodes: Nodes,
    // how many pieces the nodes have; 2^64 - 1 stands for more
    pub pieces: u64,
}

impl<'t> Cursor<'t> {
    pub fn new(heap: Global, text: &'t [u8]) -> Result<Self, Fault> {
        Ok(Cursor {
            heap,
            lexer: Lexer::new(text),
            names: BTreeMap::new(heap),
            recent: vec![in heap; None; RECENT]?,
            nodes: Nodes::new(heap),
            pieces: 0,
        })
    }

    // The name of that spelling, if it was read.
    pub fn known(&self, spelling: &'t [u8]) -> Option<Name> {
        self.names.get(&(spelling.len(), spelling)).copied()
    }

    // Where the name's spelling first stands.
    fn first(&mut self, spelling: &'t [u8], name: Name) -> Result<Name, Fault> {
        let place = recent_place(spelling);
        if let Some(Some((known, first))) = self.recent.get(place).copied() {
            if known == spelling {
                return Ok(first);
            }
        }
        let key = (spelling.len(), spelling);
        let first = *self.names.entry(key)?.or_insert(name);
        if let Some(kept) = self.recent.get_mut(place) {
            *kept = Some((spelling, first));
        }
        Ok(first)
    }

    pub fn peek(&self) -> Option<Token> {
        self.lexer.peek()
    }

    pub fn skip(&mut self) {
        self.lexer.next();
    }

    // The next token, which must be there.
    pub fn next(&mut self) -> Result<Token, Fault> {
        let spelling = self.lexer.lexeme();
        let token = self.lexer.next().ok_or(Fault::NoText)?;
        match token {
            Token::Lower(name) => Ok(Token::Lower(self.first(spelling, name)?)),
            Token::Upper(name) => Ok(Token::Upper(self.first(spelling, name)?)),
            Token::Reserved(_)
            | Token::Mark(_)
            | Token::Number(_)
            | Token::BadNumber
            | Token::Other => Ok(token),
        }
    }

    pub fn is_at(&self, token: Token) -> bool {
        self.peek() == Some(token)
    }

    // Goes past the token, if it is next.
    pub fn accept(&mut self, token: Token) -> bool {
        let there = self.is_at(token);
        if there {
            self.skip();
        }
        there
    }

    // What stands for the first of these words that is next, if one of them is; goes past it.
    pub fn one_of<T: Copy>(&mut self, words: &[(Keyword, T)]) -> Option<T> {
        let (_, meant) = words
            .iter()
            .find(|(word, _)| self.is_at(Token::Reserved(*word)))
            .copied()?;
        self.skip();
        Some(meant)
    }

    pub fn expect(&mut self, token: Token) -> Result<(), Fault> {
        if self.accept(token) {
            Ok(())
        } else {
            Err(Fault::NoText)
        }
    }

    // A name of a variable, a function or a type.
    pub fn lower(&mut self) -> Result<Name, Fault> {
        let Token::Lower(name) = self.next()? else {
            return Err(Fault::NoText);
        };
        Ok(name)
    }

    // A name of a constructor. Written twice, since the case of Token can't be handed in.
    pub fn upper(&mut self) -> Result<Name, Fault> {
        let Token::Upper(name) = self.next()? else {
            return Err(Fault::NoText);
        };
        Ok(name)
    }

    // What `read` reads, and the sign behind it.
    pub fn up_to<T: Drop, F: FnOnce(&mut Self) -> Result<T, Fault>>(
        &mut self,
        sign: Sign,
        read: F,
    ) -> Result<T, Fault>
        requires { F.IsAlwaysCallable read }
    {
        let found = read(self)?;
        self.expect(Token::Mark(sign))?;
        Ok(found)
    }

    // Reads once or more, with the sign between each two.
    pub fn separated<F: FnMut(&mut Self) -> Result<(), Fault>>(
        &mut self,
        sign: Sign,
        mut read: F,
    ) -> Result<(), Fault>
        requires { F.IsAlwaysCallable read }
    {
        // Counted: it ends by the text, as lib.rt says.
        for _ in 0..u64::MAX {
            read(self)?;
            if !self.accept(Token::Mark(sign)) {
                break;
            }
        }
        Ok(())
    }

    // The same with commas, behind ( up to ).
    pub fn listed<F: FnMut(&mut Self) -> Result<(), Fault>>(&mut self, read: F) -> Result<(), Fault>
        requires { F.IsAlwaysCallable read }
    {
        self.separated(Sign::Comma, read)?;
        self.expect(Token::Mark(Sign::RightParen))
    }

    // So many pieces more.
    pub fn count(&mut self, pieces: u64) {
        self.pieces = self.pieces.saturating_add(pieces);
    }

    // A new expression.
    pub fn expr(&mut self, one: Expr) -> Result<ExprId, Fault> {
        let id = ExprId(self.nodes.exprs.len());
        self.nodes.exprs.push(one)?;
        self.count(1);
        Ok(id)
    }
}
