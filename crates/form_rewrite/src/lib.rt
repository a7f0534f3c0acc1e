// A layout file written in the other form: field by field, from lent bytes into a lent buffer that it fits into.
#![tactic(auto)]

ghost use Rattle.std.specs.Prelude.{true, ◌≡◌, [], ◌∷◌, ◌++◌, ◌+◌, ◌-◌, ◌*◌, ◌<◌, ◌≤◌, length, take, drop};
ghost use Rattle.form_fields.specs.Kind.{form1, form2};
ghost use Rattle.form_fields.specs.Columns.{column};
ghost use Rattle.form_fields.specs.Contents.{bytes16, field, flat, written};
ghost use Rattle.form_fields.specs.Whole.{part, contents_in};
ghost use Rattle.form_rewrite.specs.Turning.{switch_to, turned, zeros, lengthened, widened, to_form2, shortened, narrowed, to_form1, shaped};
ghost use Rattle.form_rewrite.specs.Fitting.{Read};
ghost use Rattle.print_text.specs.Puts.{Writes};

use form_fields::{Shape, TAG_BANK, TAG_BANK_2, TAG_FORM, TAG_NODE, TAG_ROW};
use print_text::write_word;

// Writes zeros that are known to fit, and answers the place behind them.
fn write_zeros(out: &mut [u8], at: usize, count: usize) -> usize
    requires { at + count ≤ length out.old }
    ensures { Writes (zeros count) out.old at result out.new }
{
    let end = at + count;
    out[at..end].fill(0);
    end
}

// A field's tag and length.
fn write_header(out: &mut [u8], at: usize, tag: u8, len: usize) -> usize
    requires len_bound { len < 65536 }
    requires at_in_bounds { at + 3 ≤ length out.old }
    ensures { Writes (tag ∷ bytes16 len) out.old at result out.new }
{
    out[at] = tag;
    out[at + 1] = (len / 256) as u8;
    out[at + 2] = (len % 256) as u8;
    at + 3
}

// A field whose payload is these bytes, with zeros before and behind them.
fn write_field(
    out: &mut [u8],
    at: usize,
    tag: u8,
    before: usize,
    word: &[u8],
    behind: usize,
) -> usize
    requires behind_bound { before + length word.now + behind < 65536 }
    requires behind_in_bounds { at + (3 + (before + length word.now + behind)) ≤ length out.old }
    ensures writes { Writes (field tag (zeros before ++ (word.now ++ zeros behind))) out.old at result out.new }
    ensures value { result ≡ at + (3 + (before + length word.now + behind)) }
{
    let first = write_header(out, at, tag, before + word.len() + behind);
    let second = write_zeros(out, first, before);
    let third = write_word(out, second, word);
    write_zeros(out, third, behind)
}

// Such a field for each of `count` things of `keep` bytes that stand `step` bytes apart in the file.
fn write_fields(
    file: &[u8],
    from: usize,
    step: usize,
    keep: usize,
    count: usize,
    tag: u8,
    before: usize,
    behind: usize,
    out: &mut [u8],
    at: usize,
) -> usize
    requires keep_in_bounds { from + count * step + keep ≤ length file.now + step }
    requires behind_bound { before + keep + behind < 65536 }
    requires behind_in_bounds { at + count * (3 + (before + keep + behind)) ≤ length out.old }
    ensures writes { Writes (flat (field tag) (column (λ a. zeros before ++ (part file.now keep a ++ zeros behind)) step from count))
        out.old at result out.new }
    ensures value { result ≡ at + count * (3 + (before + keep + behind)) }
{
    let mut end = at;
    // stays: `i` counts steps through the file, whose last thing may end short of one; chunks cut to `keep` are no plainer
    for i in 0..count {
        let p = from + i * step;
        end = write_field(out, end, tag, before, &file[p..p + keep], behind);
    }
    end
}

// The node that switches to a bank.
fn write_switch(out: &mut [u8], at: usize, bank: u8) -> usize
    requires { at + 8 ≤ length out.old }
    ensures writes { Writes (field 2 (switch_to bank)) out.old at result out.new }
    ensures value { result ≡ at + 8 }
{
    write_field(out, at, TAG_NODE, 0, &[1, 0, 0, 0, bank], 0)
}

// The node whose payload stands at `from`; a switch becomes one to this bank.
fn write_node(file: &[u8], from: usize, bank: u8, out: &mut [u8], at: usize) -> usize
    requires from_in_bounds { from + 5 ≤ length file.now }
    requires at_in_bounds { at + 8 ≤ length out.old }
    ensures writes { Writes (field 2 (turned bank (part file.now 5 from))) out.old at result out.new }
    ensures value { result ≡ at + 8 }
{
    if file[from] == 1 {
        return write_switch(out, at, bank);
    }
    write_field(out, at, TAG_NODE, 0, &file[from..from + 5], 0)
}

// All nodes, from the payload of the first on.
fn write_nodes(file: &[u8], from: usize, count: usize, bank: u8, out: &mut [u8], at: usize) -> usize
    requires count_in_bounds { from + count * 8 ≤ length file.now + 3 }
    requires count_in_bounds_2 { at + count * 8 ≤ length out.old }
    ensures writes { Writes (flat (field 2) (column (λ a. turned bank (part file.now 5 a)) 8 from count)) out.old at result
        out.new }
    ensures value { result ≡ at + count * 8 }
{
    let mut end = at;
    // stays: `i` counts steps through the file, as above
    for i in 0..count {
        end = write_node(file, from + i * 8, bank, out, end);
    }
    end
}

// The nodes from the payload at `from` on, each switch one to this bank; of each row `keep` bytes, from the first that stands at `row` on, behind
// `before` zeros; and the file from its values on.
fn write_layout(
    file: &[u8],
    shape: Shape,
    from: usize,
    count: usize,
    bank: u8,
    row: usize,
    keep: usize,
    before: usize,
    out: &mut [u8],
    at: usize,
) -> usize
    requires count_in_bounds { from + count * 8 ≤ length file.now + 3 }
    requires nodes_bound { shape.nodes < 65536 }
    requires keep_in_bounds { row + shape.rows * (3 + 5 * shape.nodes) + keep ≤ length file.now + (3 + 5 * shape.nodes) }
    requires keep_bound { before + keep < 65536 }
    requires values_in_bounds { (3 ≤ shape.values) × (shape.values ≤ length file.now + 3) }
    requires all_in_bounds { at + count * 8 + shape.rows * (3 + (before + keep + 0)) + (length file.now - (shape.values - 3)) ≤ length out.old }
    ensures { Writes (flat (field 2) (column (λ a. turned bank (part file.now 5 a)) 8 from count)
        ++ (flat (field 3) (column (λ a. zeros before ++ (part file.now keep a ++ zeros 0)) (3 + 5 * shape.nodes) row shape.rows)
        ++ take (length file.now - (shape.values - 3)) (drop (shape.values - 3) file.now))) out.old at result out.new }
{
    let step = 3 + 5 * shape.nodes as usize;
    let end = write_nodes(file, from, count, bank, out, at);
    let last = write_fields(
        file,
        row,
        step,
        keep,
        shape.rows as usize,
        TAG_ROW,
        before,
        0,
        out,
        end,
    );
    write_word(out, last, &file[shape.values - 3..])
}

// The head of form 2.
fn write_head(out: &mut [u8]) -> usize
    requires { 4 ≤ length out.old }
    ensures writes { Writes (field 16 (2 ∷ [])) out.old 0 result out.new }
    ensures value { result ≡ 4 }
{
    write_field(out, 0, TAG_FORM, 0, &[2], 0)
}

// A file of form 1 in form 2, its banks one byte longer.
fn write_lengthened(file: &[u8], shape: Shape, out: &mut [u8]) -> usize
    requires read { Read form1 file.now shape }
    requires file_in_bounds { length (written form2 (lengthened (contents_in form1 file.now))) ≤ length out.old }
    ensures { Writes (written form2 (lengthened (contents_in form1 file.now))) out.old 0 result out.new }
{
    let banks = shape.banks as usize;
    let head = write_head(out);
    let end = write_fields(file, 3, 26, 23, banks, TAG_BANK_2, 0, 1, out, head);
    write_word(out, end, &file[banks * 26..])
}

// A file of form 1 with one bank in form 2, where the layout stands in bank 1.
fn write_widened(file: &[u8], shape: Shape, out: &mut [u8]) -> usize
    requires read { Read form1 file.now shape }
    requires banks_value { shape.banks ≡ 1 }
    requires file_in_bounds { length (written form2 (widened (contents_in form1 file.now))) ≤ length out.old }
    ensures { Writes (written form2 (widened (contents_in form1 file.now))) out.old 0 result out.new }
{
    let nodes = shape.nodes as usize;
    let head = write_head(out);
    let zero = write_field(out, head, TAG_BANK_2, 0, &file[3..13], 14);
    let one = write_field(out, zero, TAG_BANK_2, 0, &file[3..26], 1);
    let end = write_switch(out, one, 1);
    write_layout(
        file,
        shape,
        29,
        nodes,
        1,
        29 + nodes * 8,
        5 * nodes,
        5,
        out,
        end,
    )
}

// A sound file of form 1 in form 2, into a buffer that it fits into.
pub fn write2(file: &[u8], shape: Shape, out: &mut [u8]) -> usize
    requires read { Read form1 file.now shape }
    requires file_in_bounds { length (written form2 (to_form2 (contents_in form1 file.now))) ≤ length out.old }
    ensures { Writes (written form2 (to_form2 (contents_in form1 file.now))) out.old 0 result out.new }
{
    if shape.banks == 1 {
        return write_widened(file, shape, out);
    }
    write_lengthened(file, shape, out)
}

// A file of form 2 in form 1, its banks one byte shorter.
fn write_shortened(file: &[u8], shape: Shape, out: &mut [u8]) -> usize
    requires read { Read form2 file.now shape }
    requires file_in_bounds { length (written form1 (shortened (contents_in form2 file.now))) ≤ length out.old }
    ensures { Writes (written form1 (shortened (contents_in form2 file.now))) out.old 0 result out.new }
{
    let banks = shape.banks as usize;
    let end = write_fields(file, 7, 27, 23, banks, TAG_BANK, 0, 0, out, 0);
    write_word(out, end, &file[4 + banks * 27..])
}

// A file of form 2 with the shape in form 1, where the layout stands in bank 0 alone.
fn write_narrowed(file: &[u8], shape: Shape, out: &mut [u8]) -> usize
    requires read { Read form2 file.now shape }
    requires file_value { shaped (contents_in form2 file.now) ≡ true }
    requires file_in_bounds { length (written form1 (narrowed (contents_in form2 file.now))) ≤ length out.old }
    ensures { Writes (written form1 (narrowed (contents_in form2 file.now))) out.old 0 result out.new }
{
    let nodes = shape.nodes as usize;
    let end = write_field(out, 0, TAG_BANK, 0, &file[34..57], 0);
    write_layout(
        file,
        shape,
        69,
        nodes - 1,
        0,
        66 + nodes * 8,
        5 * nodes - 5,
        0,
        out,
        end,
    )
}

// A sound file of form 2 in form 1; `found` says whether it has the shape.
pub fn write1(file: &[u8], shape: Shape, found: bool, out: &mut [u8]) -> usize
    requires read { Read form2 file.now shape }
    requires found_value { found ≡ shaped (contents_in form2 file.now) }
    requires file_in_bounds { length (written form1 (to_form1 (contents_in form2 file.now))) ≤ length out.old }
    ensures { Writes (written form1 (to_form1 (contents_in form2 file.now))) out.old 0 result out.new }
{
    if found {
        return write_narrowed(file, shape, out);
    }
    write_shortened(file, shape, out)
}
