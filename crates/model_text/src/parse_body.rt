// Statements and bodies, by recursive descent. `depth` is how many levels of braces a reading may still go down. It is an argument and
// no field of the cursor, so that it is what it was when a block has been read, and the recursion is seen to end by it.
use crate::cursor::Cursor;
use crate::fault::Fault;
use crate::parse_expr::expression;
use crate::parse_ways::{ACCESSES, branches, ways};
use crate::tree::{Access, Alt, Arm, Body, BodyId, Name, Span, Stmt, Tail, append};
use lexer::{Keyword, Sign, Token};

// Behind let.
fn binding(cursor: &mut Cursor) -> Result<Stmt, Fault> {
    let name = cursor.up_to(Sign::Gets, Cursor::lower)?;
    if cursor.accept(Token::Reserved(Keyword::Open)) {
        let from = cursor.up_to(Sign::Semicolon, Cursor::lower)?;
        Ok(Stmt::Open(name, from))
    } else if cursor.accept(Token::Reserved(Keyword::Inside)) {
        let from = cursor.up_to(Sign::Semicolon, Cursor::lower)?;
        Ok(Stmt::Inside(name, from))
    } else {
        let value = cursor.up_to(Sign::Semicolon, expression)?;
        Ok(Stmt::Bind(name, value))
    }
}

// Behind the star of *r = e.
fn storing(cursor: &mut Cursor) -> Result<Stmt, Fault> {
    let name = cursor.up_to(Sign::Gets, Cursor::lower)?;
    let value = cursor.up_to(Sign::Semicolon, expression)?;
    Ok(Stmt::Store(name, value))
}

// Behind the name of x = e.
fn assignment(cursor: &mut Cursor, name: Name) -> Result<Stmt, Fault> {
    cursor.expect(Token::Mark(Sign::Gets))?;
    let value = cursor.up_to(Sign::Semicolon, expression)?;
    Ok(Stmt::Assign(name, value))
}

#[cycle(nested_statements)]
fn conditional(cursor: &mut Cursor, depth: usize) -> Result<Stmt, Fault> {
    let (test, yes, no) = branches(cursor, |cursor| block(cursor, depth))?;
    Ok(Stmt::If(test, yes, no))
}

#[cycle(nested_statements)]
fn looping(cursor: &mut Cursor, depth: usize) -> Result<Stmt, Fault> {
    let test = expression(cursor)?;
    let does = block(cursor, depth)?;
    Ok(Stmt::While(test, does))
}

#[cycle(nested_statements)]
fn matching(cursor: &mut Cursor, depth: usize, way: Access) -> Result<Stmt, Fault> {
    let name = cursor.up_to(Sign::LeftBrace, Cursor::lower)?;
    let ways = ways(cursor, |cursor, ctor, names| {
        let block = block(cursor, depth)?;
        Ok(Alt { ctor, names, block })
    })?;
    let alts = append(&mut cursor.nodes.alts, ways.as_slice())?;
    Ok(Stmt::Match(way, name, alts))
}

#[cycle(nested_statements)]
fn statement(cursor: &mut Cursor, depth: usize) -> Result<Stmt, Fault> {
    if let Some(way) = cursor.one_of(&ACCESSES) {
        return matching(cursor, depth, way);
    }
    match cursor.next()? {
        Token::Reserved(Keyword::Let) => binding(cursor),
        Token::Reserved(Keyword::Put) => {
            let value = cursor.up_to(Sign::Semicolon, expression)?;
            Ok(Stmt::Put(value))
        }
        Token::Reserved(Keyword::If) => conditional(cursor, depth),
        Token::Reserved(Keyword::While) => looping(cursor, depth),
        Token::Mark(Sign::Star) => storing(cursor),
        Token::Lower(name) => assignment(cursor, name),
        Token::Reserved(_)
        | Token::Mark(_)
        | Token::Upper(_)
        | Token::Number(_)
        | Token::BadNumber
        | Token::Other => Err(Fault::NoText),
    }
}

// Statements up to } or give, which stay.
#[cycle(nested_statements)]
fn statements(cursor: &mut Cursor, depth: usize) -> Result<Span, Fault> {
    let mut items = Vec::new(cursor.heap);
    // Counted: it ends by the text, as lib.rt says.
    for _ in 0..u64::MAX {
        if cursor.is_at(Token::Mark(Sign::RightBrace))
            || cursor.is_at(Token::Reserved(Keyword::Give))
        {
            break;
        }
        let item = statement(cursor, depth)?;
        cursor.count(1);
        items.push(item)?;
    }
    append(&mut cursor.nodes.stmts, items.as_slice())
}

#[cycle(nested_statements)]
fn block(cursor: &mut Cursor, depth: usize) -> Result<Span, Fault> {
    let below = depth.checked_sub(1).ok_or(Fault::TooDeep)?;
    cursor.expect(Token::Mark(Sign::LeftBrace))?;
    let does = statements(cursor, below)?;
    cursor.expect(Token::Mark(Sign::RightBrace))?;
    Ok(does)
}

#[cycle(nested_bodies)]
fn giving_if(cursor: &mut Cursor, depth: usize) -> Result<Tail, Fault> {
    let (test, yes, no) = branches(cursor, |cursor| body(cursor, depth))?;
    Ok(Tail::GiveIf(test, yes, no))
}

#[cycle(nested_bodies)]
fn giving_match(cursor: &mut Cursor, depth: usize, way: Access) -> Result<Tail, Fault> {
    let name = cursor.up_to(Sign::LeftBrace, Cursor::lower)?;
    let ways = ways(cursor, |cursor, ctor, names| {
        let body = body(cursor, depth)?;
        Ok(Arm { ctor, names, body })
    })?;
    let arms = append(&mut cursor.nodes.arms, ways.as_slice())?;
    cursor.count(1);
    Ok(Tail::GiveMatch(way, name, arms))
}

// Behind give.
#[cycle(nested_bodies)]
fn tail(cursor: &mut Cursor, depth: usize) -> Result<Tail, Fault> {
    if cursor.accept(Token::Reserved(Keyword::If)) {
        return giving_if(cursor, depth);
    }
    if let Some(way) = cursor.one_of(&ACCESSES) {
        return giving_match(cursor, depth, way);
    }
    Ok(Tail::Give(expression(cursor)?))
}

#[cycle(nested_bodies)]
pub fn body(cursor: &mut Cursor, depth: usize) -> Result<BodyId, Fault> {
    let below = depth.checked_sub(1).ok_or(Fault::TooDeep)?;
    cursor.expect(Token::Mark(Sign::LeftBrace))?;
    let block = statements(cursor, below)?;
    cursor.expect(Token::Reserved(Keyword::Give))?;
    let tail = tail(cursor, below)?;
    cursor.expect(Token::Mark(Sign::RightBrace))?;
    let id = BodyId(cursor.nodes.bodies.len());
    cursor.nodes.bodies.push(Body { block, tail })?;
    Ok(id)
}
