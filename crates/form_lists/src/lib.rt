// The banks, the value bytes and the lists of a layout file, read: into a table, as a part of the file, into lent lists.
#![tactic(auto)]

ghost use Rattle.std.specs.Prelude.{◌≡◌, ◌++◌, ◌+◌, ◌-◌, ◌*◌, ◌≤◌, length, drop, replicate};
ghost use Rattle.std.proofs.Math.Seq.{paste};
ghost use Rattle.std.specs.Int.{w64};
ghost use Rattle.std.proofs.Common.{to_z};
ghost use Rattle.bankdef.specs.Check.{no_bank};
ghost use Rattle.form_fields.specs.Banks.{fill_bit_at, bank_at, banks_in, TableIs};
ghost use Rattle.form_fields.specs.Columns.{column};
ghost use Rattle.form_fields.specs.Lists.{ValuesAre, cells, Lists};
ghost use Rattle.form_fields.specs.Words.{byte, word16, word32, word64};
ghost use Rattle.form_fields.specs.Kind.{Known};
ghost use Rattle.form_fields.specs.Shape.{form_of, nodes_start};
ghost use Rattle.form_fields.specs.Told.{ListsAre};

use bankdef::{Bankdef, Bankdefs};
use form_fields::{Kind, Shape, count_run, is_set, kind_of, option, read_shape, word_of};
use prelude::{MAX_BANKS, Refusal};

// Two, four and eight bytes of a file, big-endian.
fn read16(file: &[u8], at: usize) -> u16
    requires { at + 2 ≤ length file.now }
    ensures { result ≡ word16 file.now at }
{
    word_of(file[at], file[at + 1])
}

fn read32(file: &[u8], at: usize) -> u32
    requires { at + 4 ≤ length file.now }
    ensures { result ≡ word32 file.now at }
{
    u32::from(read16(file, at)) * 65_536 + u32::from(read16(file, at + 2))
}

fn read64(file: &[u8], at: usize) -> u64
    requires { at + 8 ≤ length file.now }
    ensures { result ≡ word64 file.now at }
{
    u64::from(read32(file, at)) * 4_294_967_296 + u64::from(read32(file, at + 4))
}

// The fill bit of the bank whose field starts at `at`, where the form has one.
fn fill_bit(file: &[u8], kind: Kind, at: usize) -> u8
    requires { at + 3 + kind.bank ≤ length file.now }
    ensures { result ≡ fill_bit_at kind file.now at }
{
    if kind.bank <= 23 {
        return 0;
    }
    file[at + 26]
}

// The bank whose field starts at `at`; its start is eight bytes as two's complement.
fn read_bank(file: &[u8], kind: Kind, at: usize) -> Bankdef
    requires le_bank { 23 ≤ kind.bank }
    requires bank_in_bounds { at + 3 + kind.bank ≤ length file.now }
    ensures { result ≡ bank_at kind file.now at }
{
    let flags = file[at + 25];
    Bankdef {
        unit: read16(file, at + 3),
        start: read64(file, at + 5).cast_signed(),
        size: option(flags, 1, read32(file, at + 13)),
        offset: option(flags, 2, read32(file, at + 17)),
        align: option(flags, 4, read32(file, at + 21)),
        fill: is_set(flags, 8),
        fill_bit: fill_bit(file, kind, at),
    }
}

// The first `count` banks, in a table of 16.
fn read_table(file: &[u8], kind: Kind, count: usize) -> [Bankdef; 16]
    requires known { Known kind }
    requires count_bound { count ≤ 16 }
    requires bank_in_bounds { kind.heads * 4 + count * (3 + kind.bank) ≤ length file.now }
    ensures { result ≡ banks_in kind file.now count ++ replicate (16 - count) no_bank }
{
    let mut defs = [Bankdef {
        unit: 0,
        start: 0,
        size: None,
        offset: None,
        align: None,
        fill: false,
        fill_bit: 0,
    }; 16];
    let first = kind.heads as usize * 4;
    let step = 3 + kind.bank;
    for (i, def) in defs[..count].iter_mut().enumerate() {
        *def = read_bank(file, kind, first + i * step);
    }
    defs
}

// The table of a file: its first 16 banks, and how many it has.
pub fn read_banks(file: &[u8]) -> Bankdefs
    ensures { TableIs file.now result }
{
    let kind = kind_of(file);
    let run = count_run(file, kind.tag, kind.bank, kind.heads as usize * 4);
    let count = run.count.min(MAX_BANKS);
    Bankdefs {
        defs: read_table(file, kind, count as usize),
        len: run.count,
    }
}

// The value bytes of a sound file, a part of the file itself; none where the file is broken.
pub fn read_values<'a>(file: &'a [u8]) -> &'a [u8]
    ensures { ValuesAre file.now result.now }
{
    let Ok(shape) = read_shape(file) else {
        return &file[0..0];
    };
    let start = shape.values;
    let end = start + shape.size;
    &file[start..end]
}

// Reads a word and a byte of each of `count` things that stand `step` bytes apart, into the lists from `from` on.
fn read_columns(
    file: &[u8],
    word_at: usize,
    byte_at: usize,
    step: usize,
    count: usize,
    from: usize,
    words: &mut [u32],
    bytes: &mut [u8],
)
    requires step_in_bounds { word_at + count * step + 4 ≤ length file.now + step }
    requires step_in_bounds_2 { byte_at + count * step + 1 ≤ length file.now + step }
    requires count_in_bounds { from + count ≤ length words.old }
    requires count_in_bounds_2 { from + count ≤ length bytes.old }
    ensures words_after { words.new ≡ paste words.old from (column (word32 file.now) step word_at count) count }
    ensures bytes_after { bytes.new ≡ paste bytes.old from (column (byte file.now) step byte_at count) count }
{
    // stays: a word and a byte `step` apart go into two lists from `from` on; a zip of three parts with a step is no plainer
    for i in 0..count {
        let p = i * step;
        words[from + i] = read32(file, word_at + p);
        bytes[from + i] = file[byte_at + p];
    }
}

// Reads the numbers and the states of the rows that stand one behind the other from `at` on.
fn read_rows(
    file: &[u8],
    at: usize,
    nodes: usize,
    rows: usize,
    numbers: &mut [u32],
    states: &mut [u8],
)
    requires nodes_in_bounds { at + rows * (3 + 5 * nodes) ≤ length file.now }
    requires nodes_in_bounds_2 { rows * nodes ≤ length numbers.old }
    requires nodes_in_bounds_3 { rows * nodes ≤ length states.old }
    ensures numbers_after { numbers.new ≡ cells (word32 file.now) nodes (at + 3) rows ++ drop (rows * nodes) numbers.old }
    ensures states_after { states.new ≡ cells (byte file.now) nodes (at + 7) rows ++ drop (rows * nodes) states.old }
{
    for r in 0..rows {
        let p = at + r * (3 + 5 * nodes);
        read_columns(file, p + 3, p + 7, 5, nodes, r * nodes, numbers, states);
    }
}

// Where the nodes of a sound file start.
fn nodes_start(file: &[u8], shape: Shape) -> usize
    requires { form_of file.now ≡ Ok shape }
    ensures { result ≡ nodes_start file.now }
{
    let kind = kind_of(file);
    kind.heads as usize * 4 + shape.banks as usize * (3 + kind.bank)
}

// Reads the lists of a sound file, or refuses where one that is lent is too short for them.
fn fill_lists(
    file: &[u8],
    shape: Shape,
    kinds: &mut [u8],
    operands: &mut [u32],
    numbers: &mut [u32],
    states: &mut [u8],
) -> Result<(), Refusal>
    requires { form_of file.now ≡ Ok shape }
    ensures { Lists file.now kinds.old operands.old numbers.old states.old result
        kinds.new operands.new numbers.new states.new }
{
    let nodes = shape.nodes as usize;
    let rows = shape.rows as usize;
    if kinds.len() < nodes {
        return Err(Refusal::Malformed(0));
    }
    if operands.len() < nodes {
        return Err(Refusal::Malformed(0));
    }
    let cells = rows * nodes;
    if numbers.len() < cells {
        return Err(Refusal::Malformed(1));
    }
    if states.len() < cells {
        return Err(Refusal::Malformed(1));
    }
    let start = nodes_start(file, shape);
    read_columns(file, start + 4, start + 3, 8, nodes, 0, operands, kinds);
    read_rows(file, start + nodes * 8, nodes, rows, numbers, states);
    Ok(())
}

// Reads the kind and the operand of each node, and each row's number and state of each node, row by row.
pub fn read_lists(
    file: &[u8],
    kinds: &mut [u8],
    operands: &mut [u32],
    numbers: &mut [u32],
    states: &mut [u8],
) -> Result<(), Refusal>
    ensures { ListsAre file.now kinds.old operands.old numbers.old states.old result
        kinds.new operands.new numbers.new states.new }
{
    match read_shape(file) {
        Ok(shape) => fill_lists(file, shape, kinds, operands, numbers, states),
        Err(r) => Err(r),
    }
}
