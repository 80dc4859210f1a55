// What an if and a match between statements share with those that give something.
use crate::cursor::Cursor;
use crate::fault::Fault;
use crate::parse_expr::expression;
use crate::tree::{Access, ExprId, Name, Span};
use lexer::{Keyword, Sign, Token};

// The words for accesses.
pub const ACCESSES: [(Keyword, Access); 3] = [
    (Keyword::Take, Access::Take),
    (Keyword::View, Access::View),
    (Keyword::Edit, Access::Edit),
];

// The name of a part, among the nodes.
fn part(cursor: &mut Cursor) -> Result<(), Fault> {
    let name = cursor.lower()?;
    cursor.nodes.names.push(name)?;
    cursor.count(1);
    Ok(())
}

// (x, y, ..), or nothing. No pattern stands inside another, so the names lie among the nodes as they are read.
fn names(cursor: &mut Cursor) -> Result<Span, Fault> {
    let start = cursor.nodes.names.len();
    if cursor.accept(Token::Mark(Sign::LeftParen)) {
        cursor.listed(part)?;
    }
    Ok(Span {
        start,
        end: cursor.nodes.names.len(),
    })
}

// A test, and what is read behind it and again behind else.
pub fn branches<T: Drop, F: FnMut(&mut Cursor) -> Result<T, Fault>>(
    cursor: &mut Cursor,
    mut read: F,
) -> Result<(ExprId, T, T), Fault>
    requires { F.IsAlwaysCallable read }
{
    let test = expression(cursor)?;
    let yes = read(cursor)?;
    cursor.expect(Token::Reserved(Keyword::Else))?;
    let no = read(cursor)?;
    Ok((test, yes, no))
}

// The ways of a match, up to }: of each its constructor, the names of its parts, and what is read behind them.
pub fn ways<T: Drop, F: FnMut(&mut Cursor, Name, Span) -> Result<T, Fault>>(
    cursor: &mut Cursor,
    mut read: F,
) -> Result<Vec<T>, Fault>
    requires { F.IsAlwaysCallable read }
{
    let mut found = Vec::new(cursor.heap);
    // Counted: it ends by the text, as lib.rt says.
    for _ in 0..u64::MAX {
        if cursor.accept(Token::Mark(Sign::RightBrace)) {
            break;
        }
        let ctor = cursor.upper()?;
        let names = names(cursor)?;
        found.push(read(cursor, ctor, names)?)?;
    }
    Ok(found)
}
