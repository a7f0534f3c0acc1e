// A layout file of either form, read: where things stand in a lent file, and which file is broken.
#![tactic(auto)]

ghost use Rattle.std.specs.Prelude.{◌≡◌, ◌+◌, ◌*◌, ◌<◌, ◌≤◌, leb, length};
ghost use Rattle.form_fields.specs.Words.{word16};
ghost use Rattle.form_fields.specs.Banks.{is_set, opt_of};
ghost use Rattle.form_fields.specs.Fields.{field_at, ends_well, sound_at, run};
ghost use Rattle.form_fields.specs.Kind.{form1, form2, begins2, kind_of, headed, Known};
ghost use Rattle.form_fields.specs.Shape.{Counted, form_in};
ghost use Rattle.form_fields.specs.Told.{FormIs};

use prelude::Refusal;

// A field's tag: a bank of either form, a node, a row, the value bytes, the pass limit, and the form's number.
// stays: numbers of the file's format
pub const TAG_BANK: u8 = 1;

pub const TAG_NODE: u8 = 2;

pub const TAG_ROW: u8 = 3;

pub const TAG_VALUES: u8 = 4;

pub const TAG_LIMIT: u8 = 5;

pub const TAG_FORM: u8 = 16;

pub const TAG_BANK_2: u8 = 17;

// What differs between the forms: a form's number, how many fields stand ahead of the banks, a bank's tag and how long its
// payload is, and the longest file.
#[derive(Clone, Copy)]
pub struct Kind {
    pub form: u8,
    pub heads: u64,
    pub tag: u8,
    pub bank: usize,
    pub longest: usize,
}

// Where things stand in a sound file: its form, how many banks, nodes and rows there are, where the value bytes start and how
// many they are, and the pass limit.
#[derive(Clone, Copy)]
pub struct Shape {
    pub form: u8,
    pub banks: u64,
    pub nodes: u64,
    pub rows: u64,
    pub values: usize,
    pub size: usize,
    pub limit: u8,
}

// How many fields of a kind stand one behind the other, and where the last of them ends.
#[derive(Clone, Copy)]
pub struct Run {
    pub count: u64,
    pub end: usize,
}

// Two bytes as a number, big-endian.
pub fn word_of(high: u8, low: u8) -> u16
    ensures { result ≡ high * 256 + low }
{
    u16::from_be_bytes([high, low])
}

fn read16(file: &[u8], at: usize) -> u16
    requires { at + 2 ≤ length file.now }
    ensures { result ≡ word16 file.now at }
{
    word_of(file[at], file[at + 1])
}

// Whether a bank's flag is set; no flag, which is 0, is not.
pub fn is_set(flags: u8, flag: u8) -> bool
    ensures { result ≡ is_set flags flag }
{
    flag != 0 && flags / flag % 2 == 1
}

// A number that is there where its flag is set.
pub fn option(flags: u8, flag: u8, n: u32) -> Option<u32>
    ensures { result ≡ opt_of flags flag n }
{
    if is_set(flags, flag) { Some(n) } else { None }
}

// Whether a header and `len` bytes of payload from `at` on end within the file.
fn is_whole(size: usize, len: usize, at: usize) -> bool
    ensures { result ≡ leb (at + 3 + len) size }
{
    if size < len {
        return false;
    }
    if size - len < 3 {
        return false;
    }
    at <= size - len - 3
}

// Whether a whole field with this tag and this length stands at `at`.
fn is_field(file: &[u8], tag: u8, len: usize, at: usize) -> bool
    ensures { result ≡ field_at file.now tag len at }
{
    if !is_whole(file.len(), len, at) {
        return false;
    }
    if file[at] != tag {
        return false;
    }
    read16(file, at + 1) as usize == len
}

// Whether the last two bytes of a payload may be these: a bank's flags are at most 15, its fill bit at most 1.
fn ends_well(tag: u8, before: u8, last: u8) -> bool
    ensures { result ≡ ends_well tag before last }
{
    if tag == TAG_BANK {
        return last <= 15;
    }
    if tag != TAG_BANK_2 {
        return true;
    }
    if 15 < before {
        return false;
    }
    last <= 1
}

// Whether that field is sound.
fn is_sound(file: &[u8], tag: u8, len: usize, at: usize) -> bool
    ensures { result ≡ sound_at file.now tag len at }
{
    if !is_field(file, tag, len, at) {
        return false;
    }
    ends_well(tag, file[at + 1 + len], file[at + 2 + len])
}

// The sound fields with this tag and this length that stand one behind the other from `at` on.
pub fn count_run(file: &[u8], tag: u8, len: usize, at: usize) -> Run
    ensures count_value { result.count ≡ run file.now tag len at }
    ensures end_value { result.end ≡ at + run file.now tag len at * (3 + len) }
{
    let mut end = at;
    let mut count = 0;
    // stays: how many fields there are is what the loop finds; a chain over chunks is no plainer, since `at` may lie past the end
    while is_sound(file, tag, len, end) {
        end += 3 + len;
        count += 1;
    }
    Run { count, end }
}

// Form 1: no field ahead of the banks, and 65,000 bytes at most.
const FORM_1: Kind = Kind {
    form: 1,
    heads: 0,
    tag: TAG_BANK,
    bank: 23,
    longest: 65_000,
};

// Form 2: the field with the form's number ahead of the banks, a bank's payload one byte longer, and 65,536 bytes at most.
const FORM_2: Kind = Kind {
    form: 2,
    heads: 1,
    tag: TAG_BANK_2,
    bank: 24,
    longest: 65_536,
};

// Whether a file begins with a field of tag 16 holding one byte, 2.
fn begins2(file: &[u8]) -> bool
    ensures { result ≡ begins2 file.now }
{
    if !is_field(file, TAG_FORM, 1, 0) {
        return false;
    }
    file[3] == 2
}

// The form of a file by its first field.
pub fn kind_of(file: &[u8]) -> Kind
    ensures { result ≡ kind_of file.now }
{
    if begins2(file) { FORM_2 } else { FORM_1 }
}

// Whether a file begins as the form asks.
fn is_headed(file: &[u8], kind: Kind) -> bool
    ensures { result ≡ headed kind file.now }
{
    if kind.heads == 0 {
        return true;
    }
    begins2(file)
}

// What follows the rows: the values, the limit and the end.
fn read_rest(
    file: &[u8],
    kind: Kind,
    banks: u64,
    nodes: u64,
    rows: u64,
    at: usize,
) -> Result<Shape, Refusal>
    requires known { Known kind }
    requires counted { Counted kind file.now banks nodes rows at }
    ensures { result ≡ form_in kind file.now }
{
    let field = kind.heads + banks + nodes + rows;
    if at + 3 > file.len() {
        return Err(Refusal::Malformed(field));
    }
    let size = read16(file, at + 1) as usize;
    if !is_field(file, TAG_VALUES, size, at) {
        return Err(Refusal::Malformed(field));
    }
    let limit = at + 3 + size;
    if !is_field(file, TAG_LIMIT, 1, limit) {
        return Err(Refusal::Malformed(field + 1));
    }
    if limit + 4 < file.len() {
        return Err(Refusal::Malformed(field + 2));
    }
    Ok(Shape {
        form: kind.form,
        banks,
        nodes,
        rows,
        values: at + 3,
        size,
        limit: file[limit + 3],
    })
}

// Where things stand in a file of this form, or at which field it is broken.
fn read_as(file: &[u8], kind: Kind) -> Result<Shape, Refusal>
    requires { Known kind }
    ensures { result ≡ form_in kind file.now }
{
    if kind.longest < file.len() {
        return Err(Refusal::Malformed(0));
    }
    if !is_headed(file, kind) {
        return Err(Refusal::Malformed(0));
    }
    let banks = count_run(file, kind.tag, kind.bank, kind.heads as usize * 4);
    let nodes = count_run(file, TAG_NODE, 5, banks.end);
    let rows = count_run(file, TAG_ROW, 5 * nodes.count as usize, nodes.end);
    read_rest(file, kind, banks.count, nodes.count, rows.count, rows.end)
}

// Where things stand in a file of either form, or at which field it is broken.
pub fn read_shape(file: &[u8]) -> Result<Shape, Refusal>
    ensures { FormIs (kind_of file.now) file.now result }
{
    read_as(file, kind_of(file))
}

// The same of a file that is to be of form 1, or of form 2: one of the other form is broken at field 0.
pub fn read_form1(file: &[u8]) -> Result<Shape, Refusal>
    ensures { FormIs form1 file.now result }
{
    read_as(file, FORM_1)
}

pub fn read_form2(file: &[u8]) -> Result<Shape, Refusal>
    ensures { FormIs form2 file.now result }
{
    read_as(file, FORM_2)
}
