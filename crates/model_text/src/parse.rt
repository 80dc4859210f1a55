// Types and items: a whole text.
use crate::cursor::Cursor;
use crate::fault::Fault;
use crate::parse_body::body;
use crate::tree::{Base, Ctor, Data, Function, Param, Prefix, Program, Type};
use lexer::{Keyword, Sign, Token};
use std::alloc::Global;

// So many levels of braces may be open at a time.
const MOST_BRACES: usize = 5_000;

// The words for prefixes.
const PREFIXES: [(Keyword, Prefix); 3] = [
    (Keyword::Box, Prefix::Box),
    (Keyword::Ref, Prefix::Ref),
    (Keyword::Mut, Prefix::Mut),
];

fn a_type(cursor: &mut Cursor) -> Result<Type, Fault> {
    let mut prefixes = Vec::new(cursor.heap);
    // Counted: it ends by the text, as lib.rt says.
    for _ in 0..u64::MAX {
        let Some(prefix) = cursor.one_of(&PREFIXES) else {
            break;
        };
        prefixes.push(prefix)?;
    }
    let base = match cursor.next()? {
        Token::Reserved(Keyword::Int) => Base::Int,
        Token::Lower(name) => Base::Data(name),
        Token::Reserved(_)
        | Token::Mark(_)
        | Token::Upper(_)
        | Token::Number(_)
        | Token::BadNumber
        | Token::Other => return Err(Fault::NoText),
    };
    Ok(Type { prefixes, base })
}

fn constructor(cursor: &mut Cursor) -> Result<Ctor, Fault> {
    let name = cursor.upper()?;
    let mut fields = Vec::new(cursor.heap);
    if cursor.accept(Token::Mark(Sign::LeftParen)) {
        cursor.listed(|c| Ok(fields.push(a_type(c)?)?))?;
    }
    Ok(Ctor { name, fields })
}

// Behind data.
fn a_data(cursor: &mut Cursor) -> Result<Data, Fault> {
    let name = cursor.lower()?;
    cursor.expect(Token::Mark(Sign::Gets))?;
    let mut ctors = Vec::new(cursor.heap);
    cursor.separated(Sign::Bar, |c| Ok(ctors.push(constructor(c)?)?))?;
    let last = if cursor.accept(Token::Reserved(Keyword::Drop)) {
        Some(cursor.lower()?)
    } else {
        None
    };
    cursor.expect(Token::Mark(Sign::Semicolon))?;
    Ok(Data { name, ctors, last })
}

fn parameter(cursor: &mut Cursor) -> Result<Param, Fault> {
    let name = cursor.up_to(Sign::Colon, Cursor::lower)?;
    let ty = a_type(cursor)?;
    Ok(Param { name, ty })
}

// Behind (.
fn parameters(cursor: &mut Cursor) -> Result<Vec<Param>, Fault> {
    let mut found = Vec::new(cursor.heap);
    if !cursor.accept(Token::Mark(Sign::RightParen)) {
        cursor.listed(|c| Ok(found.push(parameter(c)?)?))?;
    }
    Ok(found)
}

// Behind fn.
fn a_function(cursor: &mut Cursor) -> Result<Function, Fault> {
    let name = cursor.up_to(Sign::LeftParen, Cursor::lower)?;
    let params = cursor.up_to(Sign::Colon, parameters)?;
    let gives = a_type(cursor)?;
    cursor.pieces = 0;
    let body = body(cursor, MOST_BRACES)?;
    Ok(Function {
        name,
        params,
        gives,
        body,
        pieces: cursor.pieces,
    })
}

// The program that the text is.
pub fn read(heap: Global, text: &[u8]) -> Result<Program, Fault> {
    let mut cursor = Cursor::new(heap, text)?;
    let mut datas = Vec::new(heap);
    let mut functions = Vec::new(heap);
    // Counted: it ends by the text, as lib.rt says.
    for _ in 0..u64::MAX {
        if cursor.peek().is_none() {
            break;
        }
        match cursor.next()? {
            Token::Reserved(Keyword::Data) => datas.push(a_data(&mut cursor)?)?,
            Token::Reserved(Keyword::Fn) => functions.push(a_function(&mut cursor)?)?,
            Token::Reserved(_)
            | Token::Mark(_)
            | Token::Lower(_)
            | Token::Upper(_)
            | Token::Number(_)
            | Token::BadNumber
            | Token::Other => return Err(Fault::NoText),
        }
    }
    let main = cursor.known(b"main");
    Ok(Program {
        datas,
        functions,
        nodes: cursor.nodes,
        main,
    })
}
