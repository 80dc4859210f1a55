use crate::name::Name;

// The reserved words.
#[derive(Clone, Copy, PartialEq, Eq, Debug)]
pub enum Keyword {
    Data,
    Drop,
    By,
    Fn,
    Let,
    Put,
    If,
    Else,
    While,
    Take,
    View,
    Edit,
    Open,
    Inside,
    Give,
    Box,
    Ref,
    Mut,
    Int,
    Get,
}

// What is neither a word nor a number.
#[derive(Clone, Copy, PartialEq, Eq, Debug)]
pub enum Sign {
    LeftParen,
    RightParen,
    LeftBrace,
    RightBrace,
    Comma,
    Semicolon,
    Colon,
    Bar,
    Gets,
    And,
    Star,
    Equal,
    Less,
    Plus,
    Minus,
    Slash,
    Percent,
}

// A token. BadNumber begins with a digit and has no value below 2^64; Other is a byte that stands for nothing.
#[derive(Clone, Copy, PartialEq, Eq, Debug)]
pub enum Token {
    Reserved(Keyword),
    Mark(Sign),
    Lower(Name),
    Upper(Name),
    Number(u64),
    BadNumber,
    Other,
}
