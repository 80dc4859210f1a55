ghost use Rattle.std.specs.Prelude.{◌≡◌};
ghost use Rattle.reader.specs.Stack.{slot_for, symbol_held, plain_symbol};

use super::symbol::Symbol;
use code::{Instr, Slot};
use lexer::Name;

// The number of a symbol on the stack; those below it are opcodes.
const DATA_END: u64 = 64;

// By number, both ways: symbols lie in lent words, and no cast gives an enum with fields its number.
fn plain_symbol(op: u64) -> Symbol
    ensures { result ≡ plain_symbol op }
{
    match op {
        65 => Symbol::Else,
        66 => Symbol::Give,
        67 => Symbol::RightParen,
        68 => Symbol::RightBrace,
        69 => Symbol::Semicolon,
        70 => Symbol::Colon,
        71 => Symbol::Expr,
        72 => Symbol::Compared,
        73 => Symbol::Sum,
        74 => Symbol::Product,
        75 => Symbol::Factor,
        76 => Symbol::MoreSum,
        77 => Symbol::MoreProduct,
        78 => Symbol::Primary,
        79 => Symbol::Args,
        80 => Symbol::ArgsOn,
        81 => Symbol::Names,
        82 => Symbol::SomeNames,
        83 => Symbol::Stmts,
        84 => Symbol::Block,
        85 => Symbol::Alts,
        86 => Symbol::Body,
        87 => Symbol::Tail,
        88 => Symbol::Arms,
        89 => Symbol::Ty,
        90 => Symbol::Fields,
        91 => Symbol::FieldsOn,
        92 => Symbol::SomeFields,
        93 => Symbol::Ctors,
        94 => Symbol::CtorsOn,
        95 => Symbol::Params,
        96 => Symbol::ParamsOn,
        97 => Symbol::SomeParams,
        _ => Symbol::Items,
    }
}

impl From<Slot> for Symbol {
    ghost from_gives = { λ slot symbol. symbol ≡ symbol_held slot };

    fn from(slot: Slot) -> Symbol {
        if slot.op < DATA_END {
            let instr = Instr::try_from(slot).ok();
            instr.map_or(Symbol::Items, |i| Symbol::Emit(i))
        } else if slot.op == DATA_END {
            Symbol::DataEnd(Name(slot.first as usize))
        } else {
            plain_symbol(slot.op)
        }
    }
}

impl From<Symbol> for Slot {
    ghost from_gives = { λ symbol slot. slot ≡ slot_for symbol };

    // By number: see plain_symbol.
    fn from(symbol: Symbol) -> Slot {
        match symbol {
            Symbol::Emit(i) => Slot::from(i),
            Symbol::DataEnd(name) => Slot {
                op: DATA_END,
                first: name.0 as u64,
                second: 0,
            },
            Symbol::Else => Slot::plain(65),
            Symbol::Give => Slot::plain(66),
            Symbol::RightParen => Slot::plain(67),
            Symbol::RightBrace => Slot::plain(68),
            Symbol::Semicolon => Slot::plain(69),
            Symbol::Colon => Slot::plain(70),
            Symbol::Expr => Slot::plain(71),
            Symbol::Compared => Slot::plain(72),
            Symbol::Sum => Slot::plain(73),
            Symbol::Product => Slot::plain(74),
            Symbol::Factor => Slot::plain(75),
            Symbol::MoreSum => Slot::plain(76),
            Symbol::MoreProduct => Slot::plain(77),
            Symbol::Primary => Slot::plain(78),
            Symbol::Args => Slot::plain(79),
            Symbol::ArgsOn => Slot::plain(80),
            Symbol::Names => Slot::plain(81),
            Symbol::SomeNames => Slot::plain(82),
            Symbol::Stmts => Slot::plain(83),
            Symbol::Block => Slot::plain(84),
            Symbol::Alts => Slot::plain(85),
            Symbol::Body => Slot::plain(86),
            Symbol::Tail => Slot::plain(87),
            Symbol::Arms => Slot::plain(88),
            Symbol::Ty => Slot::plain(89),
            Symbol::Fields => Slot::plain(90),
            Symbol::FieldsOn => Slot::plain(91),
            Symbol::SomeFields => Slot::plain(92),
            Symbol::Ctors => Slot::plain(93),
            Symbol::CtorsOn => Slot::plain(94),
            Symbol::Params => Slot::plain(95),
            Symbol::ParamsOn => Slot::plain(96),
            Symbol::SomeParams => Slot::plain(97),
            Symbol::Items => Slot::plain(98),
        }
    }
}
