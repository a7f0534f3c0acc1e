// The numbers a caller gets back, the limits and the kinds. Every crate of the layout speaks of these through this one.
#![tactic(auto)]

ghost use Rattle.std.specs.Prelude.{◌≡◌, ◌&&◌, min, max};
ghost use Rattle.prelude.specs.Refusals.{number_of, place_of};

// The limits of document 01's table that no type carries by itself. The others are types: a size, an offset, an alignment
// and a bank position are `u32`, an address unit is `u16`, a pass limit `u8`.
pub const MAX_BANKS: u64 = 16;

pub const MAX_START: u64 = 1_099_511_627_776;

pub const MAX_POSITION: u64 = 4_294_967_295;

pub const MAX_OFFER: u64 = 8_589_934_590;

pub const MAX_NODES: u64 = 4_096;

pub const MAX_ROWS: u64 = 16;

pub const MAX_STORED: u64 = 512;

// "Kinds: 0 nothing, 1 bank switch, 2 label, 3 constant, 4 instruction, 5 data of declared size, 6 data of open size, 7 reserve, 8 align, 9 addr,
// 10 assert."
// stays: numbers of the lists that C lends, states too (the C interface); what a kind does is the enum `Doing` of crates/nodes
pub const NOTHING: u8 = 0;

pub const SWITCH: u8 = 1;

pub const LABEL: u8 = 2;

pub const CONSTANT: u8 = 3;

pub const INSTRUCTION: u8 = 4;

pub const DATA: u8 = 5;

pub const OPEN_DATA: u8 = 6;

pub const RESERVE: u8 = 7;

pub const ALIGN: u8 = 8;

pub const ADDR: u8 = 9;

pub const ASSERT: u8 = 10;

// "a state (0 resolved, 1 stable, 2 unresolved)"
pub const RESOLVED: u8 = 0;

pub const STABLE: u8 = 1;

pub const UNRESOLVED: u8 = 2;

// Why a call was refused. A case carries its place; one that carries nothing has place 0.
#[derive(Clone, Copy)]
pub enum Refusal {
    BankCount,
    BankNumber(u64),
    BanksOverlap(u64, u64),
    Malformed(u64),
    PositionPast(u64),
    LabelOffBoundary(u64),
    Unresolved,
    DefaultBank(u64),
    PastBank(u64),
    NoOutput(u64),
    Overlap(u64, u64),
    StoreFull(u64),
    TooShort(u64),
    BadStore(u64),
    BadPart,
    PartlyCovered,
    FillBitDropped,
    OffProfile(u64, u64),
}

// A refusal's place: two banks, a stored start and size, a rule and its bank or node, or one number.
#[derive(Clone, Copy)]
pub enum Place {
    One(u64),
    Two(u64, u64),
}

// The refusal's number in document 01's table, or from 17 on in document 02. 6 is no longer given.
pub fn number(r: Refusal) -> u64
    ensures { result ≡ number_of r }
{
    match r {
        Refusal::BankCount => 1,
        Refusal::BankNumber(_) => 2,
        Refusal::BanksOverlap(_, _) => 3,
        Refusal::Malformed(_) => 4,
        Refusal::PositionPast(_) => 5,
        Refusal::LabelOffBoundary(_) => 7,
        Refusal::Unresolved => 8,
        Refusal::DefaultBank(_) => 9,
        Refusal::PastBank(_) => 10,
        Refusal::NoOutput(_) => 11,
        Refusal::Overlap(_, _) => 12,
        Refusal::StoreFull(_) => 13,
        Refusal::TooShort(_) => 14,
        Refusal::BadStore(_) => 15,
        Refusal::BadPart => 16,
        Refusal::PartlyCovered => 17,
        Refusal::FillBitDropped => 18,
        Refusal::OffProfile(_, _) => 19,
    }
}

// The refusal's place.
pub fn place_of(r: Refusal) -> Place
    ensures { result ≡ place_of r }
{
    match r {
        Refusal::BanksOverlap(a, b) | Refusal::Overlap(a, b) | Refusal::OffProfile(a, b) =>
            Place::Two(a, b),
        Refusal::BankNumber(p)
        | Refusal::Malformed(p)
        | Refusal::PositionPast(p)
        | Refusal::LabelOffBoundary(p)
        | Refusal::DefaultBank(p)
        | Refusal::PastBank(p)
        | Refusal::NoOutput(p)
        | Refusal::StoreFull(p)
        | Refusal::TooShort(p)
        | Refusal::BadStore(p) => Place::One(p),
        Refusal::BankCount
        | Refusal::Unresolved
        | Refusal::BadPart
        | Refusal::PartlyCovered
        | Refusal::FillBitDropped => Place::One(0),
    }
}

// The lesser of two numbers, and the greater one.
pub fn lesser(a: u64, b: u64) -> u64
    ensures { result ≡ min a b }
{
    a.min(b)
}

pub fn greater(a: u64, b: u64) -> u64
    ensures { result ≡ max a b }
{
    a.max(b)
}

// Both of two answers, without a branch in the loop that asks.
pub fn both(a: bool, b: bool) -> bool
    ensures { result ≡ (a && b) }
{
    a & b
}
