// The converter between the forms of a layout file: from lent bytes into a lent buffer, either way.
#![tactic(auto)]

ghost use Rattle.std.specs.Prelude.{◌≡◌, ◌+◌, ◌*◌, ◌≤◌, max, length};
ghost use Rattle.bankdef.specs.Search.{first_where};
ghost use Rattle.form_fields.specs.Kind.{form1, form2};
ghost use Rattle.form_fields.specs.Columns.{column};
ghost use Rattle.form_fields.specs.Contents.{written};
ghost use Rattle.form_fields.specs.Whole.{part, contents_in};
ghost use Rattle.form_rewrite.specs.Turning.{strays, to_form2, to_form1, all_zero, all_of, same, bare, shaped, bit_clear};
ghost use Rattle.form_rewrite.specs.Fitting.{Read};
ghost use Rattle.form_convert.specs.Convert.{stray, answer_of, ToForm2, ToForm1};
ghost use Rattle.form_convert.specs.Told.{TellsForm2, TellsForm1};

use form_fields::Shape;
use form_rewrite::{write1, write2};
use prelude::{MAX_NODES, MAX_ROWS, Refusal};

// Whether the node whose payload stands at `at` switches to another bank.
fn is_stray(file: &[u8], at: usize, bank: u8) -> bool
    requires { at + 5 ≤ length file.now }
    ensures { result ≡ strays bank (part file.now 5 at) }
{
    if file[at] != 1 {
        return false;
    }
    if file[at + 1] != 0 {
        return true;
    }
    if file[at + 2] != 0 {
        return true;
    }
    if file[at + 3] != 0 {
        return true;
    }
    file[at + 4] != bank
}

// The first node that switches to another bank; `count` where none does.
fn first_stray(file: &[u8], from: usize, count: u64, bank: u8) -> u64
    requires { from + count * 8 ≤ length file.now + 3 }
    ensures { result ≡ first_where (strays bank) (column (part file.now 5) 8 from count) }
{
    (0..count)
        .find(|i| is_stray(file, from + *i as usize * 8, bank))
        .unwrap_or(count)
}

// Whether a result is taken, from its counts, its length and the room for it.
fn answer(
    nodes: u64,
    rows: u64,
    first: u64,
    count: u64,
    size: u64,
    longest: u64,
    drops: bool,
    room: u64,
) -> Result<u64, Refusal>
    ensures { result ≡ answer_of nodes rows first count size longest drops room }
{
    if MAX_NODES < nodes {
        return Err(Refusal::Malformed(0));
    }
    if MAX_ROWS < rows {
        return Err(Refusal::Malformed(1));
    }
    if first < count {
        return Err(Refusal::Malformed(first));
    }
    if longest < size {
        return Err(Refusal::Malformed(0));
    }
    if drops {
        return Err(Refusal::FillBitDropped);
    }
    if room < size {
        return Err(Refusal::TooShort(0));
    }
    Ok(size)
}

// How many nodes a file of form 1 has in form 2.
fn nodes2(file: &[u8], shape: Shape) -> u64
    requires { Read form1 file.now shape }
    ensures { result ≡ max (length (contents_in form1 file.now).nodes) (length (to_form2 (contents_in form1 file.now)).nodes) }
{
    if shape.banks == 1 {
        return shape.nodes + 1;
    }
    shape.nodes
}

// How long it is there.
fn length2(file: &[u8], shape: Shape) -> u64
    requires { Read form1 file.now shape }
    ensures { result ≡ length (written form2 (to_form2 (contents_in form1 file.now))) }
{
    if shape.banks == 1 {
        return file.len() as u64 + 40 + 5 * shape.rows;
    }
    file.len() as u64 + 4 + shape.banks
}

// The first node of a one-bank file that names another bank.
fn stray1(file: &[u8], shape: Shape) -> u64
    requires { Read form1 file.now shape }
    ensures { result ≡ stray (contents_in form1 file.now) }
{
    if shape.banks != 1 {
        return shape.nodes;
    }
    first_stray(file, 29, shape.nodes, 0)
}

// A sound file of form 1 in form 2.
fn convert2(file: &[u8], shape: Shape, out: &mut [u8]) -> Result<u64, Refusal>
    requires { Read form1 file.now shape }
    ensures { ToForm2 file.now out.old result out.new }
{
    let nodes = nodes2(file, shape);
    let first = stray1(file, shape);
    let size = length2(file, shape);
    match answer(
        nodes,
        shape.rows,
        first,
        shape.nodes,
        size,
        65_536,
        false,
        out.len() as u64,
    ) {
        Err(why) => Err(why),
        Ok(n) => {
            write2(file, shape, out);
            Ok(n)
        }
    }
}

// Form 1 to form 2. A refused call changes nothing that is lent.
pub fn to_form2(file: &[u8], out: &mut [u8]) -> Result<u64, Refusal>
    ensures to_form2 { ToForm2 file.now out.old result out.new }
    ensures tells_form2 { TellsForm2 file.now out.old result }
{
    match form_fields::read_form1(file) {
        Ok(shape) => convert2(file, shape, out),
        Err(why) => Err(why),
    }
}

// Whether all bytes are zero.
fn is_zero(word: &[u8]) -> bool
    ensures { result ≡ all_zero word.now }
{
    word.iter().all(|b| *b == 0)
}

// Whether the first two banks are as the converter leaves them.
fn is_bare(file: &[u8]) -> bool
    requires { 58 ≤ length file.now }
    ensures { result ≡ bare (part file.now 24 7) (part file.now 24 34) }
{
    if &file[7..17] != &file[34..44] {
        return false;
    }
    if !is_zero(&file[17..31]) {
        return false;
    }
    file[57] == 0
}

// Whether each of `count` rows, `step` bytes apart, begins with five zeros.
fn rows_start_zero(file: &[u8], from: usize, step: usize, count: usize) -> bool
    requires { from + count * step + 5 ≤ length file.now + step }
    ensures { result ≡ all_of all_zero (column (part file.now 5) step from count) }
{
    (0..count).all(|i| is_zero(&file[from + i * step..from + i * step + 5]))
}

// Whether no bank has a fill bit of one.
fn bits_clear(file: &[u8], count: usize) -> bool
    requires { 4 + count * 27 ≤ length file.now }
    ensures { result ≡ all_of bit_clear (column (part file.now 24) 27 7 count) }
{
    (0..count).all(|i| file[30 + i * 27] == 0)
}

// Whether a file of form 2 has the shape that a one-bank file takes there.
fn is_shape(file: &[u8], shape: Shape) -> bool
    requires { Read form2 file.now shape }
    ensures { result ≡ shaped (contents_in form2 file.now) }
{
    if shape.banks != 2 {
        return false;
    }
    if !is_bare(file) {
        return false;
    }
    if shape.nodes == 0 {
        return false;
    }
    if file[61] != 1 {
        return false;
    }
    if first_stray(file, 61, shape.nodes, 1) < shape.nodes {
        return false;
    }
    let nodes = shape.nodes as usize;
    rows_start_zero(file, 61 + nodes * 8, 3 + 5 * nodes, shape.rows as usize)
}

// How long a file of form 2 is in form 1.
fn length1(file: &[u8], shape: Shape, found: bool) -> u64
    requires read { Read form2 file.now shape }
    requires found_value { found ≡ shaped (contents_in form2 file.now) }
    ensures { result ≡ length (written form1 (to_form1 (contents_in form2 file.now))) }
{
    if found {
        return file.len() as u64 - 40 - 5 * shape.rows;
    }
    file.len() as u64 - 4 - shape.banks
}

// The first node of a one-bank file of form 2 that names another bank.
fn stray2(file: &[u8], shape: Shape) -> u64
    requires { Read form2 file.now shape }
    ensures { result ≡ stray (contents_in form2 file.now) }
{
    if shape.banks != 1 {
        return shape.nodes;
    }
    first_stray(file, 34, shape.nodes, 0)
}

// A sound file of form 2 in form 1.
fn convert1(file: &[u8], shape: Shape, out: &mut [u8]) -> Result<u64, Refusal>
    requires { Read form2 file.now shape }
    ensures { ToForm1 file.now out.old result out.new }
{
    let found = is_shape(file, shape);
    let first = stray2(file, shape);
    let size = length1(file, shape, found);
    let clear = bits_clear(file, shape.banks as usize);
    match answer(
        shape.nodes,
        shape.rows,
        first,
        shape.nodes,
        size,
        65_000,
        !clear,
        out.len() as u64,
    ) {
        Err(why) => Err(why),
        Ok(n) => {
            write1(file, shape, found, out);
            Ok(n)
        }
    }
}

// Form 2 to form 1. A refused call changes nothing that is lent.
pub fn to_form1(file: &[u8], out: &mut [u8]) -> Result<u64, Refusal>
    ensures to_form1 { ToForm1 file.now out.old result out.new }
    ensures tells_form1 { TellsForm1 file.now out.old result }
{
    match form_fields::read_form2(file) {
        Ok(shape) => convert1(file, shape, out),
        Err(why) => Err(why),
    }
}
