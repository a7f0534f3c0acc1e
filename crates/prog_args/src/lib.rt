// What the programs share: what they read, numbers on the command line, and what they print.
//
// What reaches the system takes a handle: `rt` is the runtime, or what stands for it. No contract can say what comes from there or what arrives. A read that
// fails ends the input, and a write that fails leaves the rest unwritten.
#![tactic(auto)]

ghost use Rattle.std.specs.Prelude.{◌≡◌, ◌+◌, ◌*◌, ◌≤◌, min, length};
ghost use Rattle.prog_args.specs.Counts.{IsPrefixLen};
ghost use Rattle.prelude.specs.Limits.{max_position};
ghost use Rattle.prelude.specs.Refusals.{number_of};
ghost use Rattle.print_text.specs.Lines.{refusal_text};
ghost use Rattle.prog_args.specs.Number.{digit_value, base_of, spelled_in, number_in, Spelled};
ghost use Rattle.prog_args.specs.Text.{line_room, Stands, Shows};

use prelude::Refusal;
use std::env::FillError;
use std::io::Read;
use std::rt::Env;

// Reads until a buffer is full, the input ends or a read fails, and answers how many bytes were put at the front of the buffer.
pub fn read_full(from: &mut impl Read, buf: &mut [u8]) -> usize
    ensures { IsPrefixLen result buf.new }
{
    let mut done = 0;
    // stays: each read says itself how many bytes it put
    while done < buf.len() {
        let Ok(n) = from.read(&mut buf[done..]) else {
            break;
        };
        if n == 0 {
            break;
        }
        done += n;
    }
    done
}

// Whether there is no argument `i`. Argument 0 is the program's name.
fn is_missing(rt: &impl Env, i: usize) -> bool {
    let mut word = [0u8; 1];
    match rt.arg(i, &mut word) {
        Err(FillError::NotPresent) => true,
        _ => false,
    }
}

// How many arguments there are, the program's name among them. No more than `most` are counted.
pub fn arg_count(rt: &impl Env, most: usize) -> usize
    ensures { result ≤ most }
{
    (0..most).find(|&i| is_missing(rt, i)).unwrap_or(most)
}

// Puts argument `i` at the front of a buffer, and answers its length: 0 where it is missing or longer than the buffer.
pub fn arg(rt: &impl Env, i: usize, buf: &mut [u8]) -> usize
    ensures { IsPrefixLen result buf.new }
{
    match rt.arg(i, buf) {
        Ok(n) => n,
        Err(_) => 0,
    }
}

// The value of a digit, in either case; 16 for a character that is none.
fn digit_value(c: u8) -> u64
    ensures value { result ≡ digit_value c }
    ensures upper_bound { result ≤ 16 }
{
    match c {
        b'0'..=b'9' => u64::from(c - b'0'),
        b'A'..=b'F' => u64::from(c - b'A') + 10,
        b'a'..=b'f' => u64::from(c - b'a') + 10,
        _ => 16,
    }
}

fn base_of(hex: bool) -> u64
    ensures { result ≡ base_of hex }
{
    if hex { 16 } else { 10 }
}

// A number with a digit more.
fn longer(hex: bool, value: u64, digit: u64) -> u64
    requires { (value ≤ max_position) × (digit ≤ 16) }
    ensures { result ≡ base_of hex * value + digit }
{
    if hex {
        16 * value + digit
    } else {
        10 * value + digit
    }
}

// The number that the digits of a text spell.
fn spelled(text: &[u8], hex: bool) -> Option<u32>
    ensures { result ≡ spelled_in (base_of hex) text.now }
{
    if text.is_empty() {
        return None;
    }
    let base = base_of(hex);
    let mut value: u64 = 0;
    for &c in text {
        let digit = digit_value(c);
        if base <= digit {
            return None;
        }
        value = longer(hex, value, digit);
        if value > 4_294_967_295 {
            return None;
        }
    }
    Some(value as u32)
}

// The number that a text spells in decimal digits, or in hexadecimal ones behind 0x, up to 4,294,967,295; none for any other text, the empty one too.
pub fn number(text: &[u8]) -> Option<u32>
    ensures { result ≡ number_in text.now }
{
    match text {
        [b'0', b'x' | b'X', digits @ ..] => spelled(digits, true),
        _ => spelled(text, false),
    }
}

// The number that argument i spells; none where it is missing. No contract can say which text the argument is.
pub fn number_at(rt: &impl Env, i: usize) -> Option<u32>
    ensures { Spelled result }
{
    let mut word = [0u8; 16];
    let n = arg(rt, i, &mut word);
    number(&word[..n])
}

// How many of a list's elements a count stands for: never more than there are, so that the front of the list can be taken.
pub fn within(count: u64, list: &[u64]) -> usize
    ensures value { result ≡ min count (length list.now) }
    ensures prefix_len { IsPrefixLen result list.now }
{
    front(count, list)
}

// The same of any elements.
fn front<T: Copy>(count: u64, list: &[T]) -> usize
    ensures { result ≡ min count (length list.now) }
{
    count.min(list.len() as u64) as usize
}

// Hands the first bytes of a text to standard output, and answers how many.
pub fn print(rt: &impl Print, text: &[u8], count: u64) -> usize
    ensures { result ≡ min count (length text.now) }
{
    let n = front(count, text);
    let _ = rt.write_all(&text[..n]);
    n
}

// A refusal's line, put at the front of a buffer that holds every such line: how long it is.
pub fn put_refusal(why: Refusal, out: &mut [u8]) -> usize
    requires { line_room ≤ length out.old }
    ensures stands { Stands (refusal_text why) out.old result out.new }
    ensures upper_bound { result ≤ line_room }
{
    print_text::write_refusal(out, 0, why)
}

// Hands a refusal's line on from the front of a buffer, and answers how many bytes.
fn hand_refusal(rt: &impl Print, why: Refusal, line: &mut [u8]) -> usize
    requires { line_room ≤ length line.old }
    ensures { Shows (refusal_text why) result line.new }
{
    let end = put_refusal(why, line);
    print(rt, line, end as u64)
}

// Hands a refusal's line to standard output, whole, and answers how many bytes.
pub fn print_refusal(rt: &impl Print, why: Refusal) -> usize
    ensures { result ≡ length (refusal_text why) }
{
    let mut line = [0u8; 128];
    hand_refusal(rt, why, &mut line)
}

// Hands a refusal's line to standard output, and answers its number.
pub fn refuse(rt: &impl Print, why: Refusal) -> u64
    ensures { result ≡ number_of why }
{
    print_refusal(rt, why);
    prelude::number(why)
}
