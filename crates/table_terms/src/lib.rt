// The decoded table: the tokens and the terms of a rule table in one array of bytes, and the measures of its terms.
//
// The tokens of each channel stand first. Behind them each term has five bytes: its kind, its first and its second
// field, and its measures, breadth and length. A process's breadth is its width and its length is 0; an expression's
// breadth is its branches. The array belongs to the caller, who lends it; whoever reads a table fills it, a term at a
// time.
#![tactic(auto)]

ghost use Rattle.std.specs.Prelude.{◌≡◌, ◌+◌, ◌<◌, max, length, get_or, set};
ghost use Rattle.table_terms.specs.Decoded.{channels, max_terms, decoded_bytes, kind_at, first_at, second_at, breadth_at, length_at, with_record, with_measures};
ghost use Rattle.table_terms.specs.TermMeasures.{breadth_in, length_in, CanMeasure, MeasuresOf, LimitTested};

use table_records::{CHANNELS, Class, OR_ELSE, PAR, RD, Record, WT};

// A table has at most so many terms.
pub const TERMS: usize = 200;

// The decoded table's length.
pub const DECODED: usize = CHANNELS + TERM * TERMS;

// The limits of the measures.
pub const MAX_WIDTH: u8 = 64;

pub const MAX_BRANCHES: u8 = 8;

pub const MAX_LENGTH: u8 = 16;

// A term's bytes, and the place of each.
const TERM: usize = 5;

const KIND: usize = 0;

const FIRST: usize = 1;

const SECOND: usize = 2;

const BREADTH: usize = 3;

const LENGTH: usize = 4;

// A term's measures.
#[derive(Clone, Copy, PartialEq, Eq, Debug)]
pub struct Measures {
    pub breadth: u8,
    pub length: u8,
}

// ---- reading

pub fn kind_at(decoded: &[u8; DECODED], i: usize) -> u8
    requires { i < max_terms }
    ensures { result ≡ kind_at decoded.now i }
{
    decoded[CHANNELS + TERM * i + KIND]
}

pub fn first_at(decoded: &[u8; DECODED], i: usize) -> u8
    requires { i < max_terms }
    ensures { result ≡ first_at decoded.now i }
{
    decoded[CHANNELS + TERM * i + FIRST]
}

pub fn second_at(decoded: &[u8; DECODED], i: usize) -> u8
    requires { i < max_terms }
    ensures { result ≡ second_at decoded.now i }
{
    decoded[CHANNELS + TERM * i + SECOND]
}

pub fn breadth_at(decoded: &[u8; DECODED], i: usize) -> u8
    requires { i < max_terms }
    ensures { result ≡ breadth_at decoded.now i }
{
    decoded[CHANNELS + TERM * i + BREADTH]
}

pub fn length_at(decoded: &[u8; DECODED], i: usize) -> u8
    requires { i < max_terms }
    ensures { result ≡ length_at decoded.now i }
{
    decoded[CHANNELS + TERM * i + LENGTH]
}

pub fn tokens_at(decoded: &[u8; DECODED], channel: usize) -> u8
    requires { channel < channels }
    ensures { result ≡ get_or decoded.now channel 0 }
{
    decoded[channel]
}

// ---- writing

pub fn put_record(decoded: &mut [u8; DECODED], i: usize, parsed: Record)
    requires { (i < max_terms) × (length decoded.old ≡ decoded_bytes) }
    ensures { decoded.new
        ≡ with_record decoded.old i parsed.kind parsed.first parsed.second }
{
    decoded[CHANNELS + TERM * i + KIND] = parsed.kind;
    decoded[CHANNELS + TERM * i + FIRST] = parsed.first;
    decoded[CHANNELS + TERM * i + SECOND] = parsed.second;
}

pub fn put_measures(decoded: &mut [u8; DECODED], i: usize, m: Measures)
    requires { (i < max_terms) × (length decoded.old ≡ decoded_bytes) }
    ensures { decoded.new ≡ with_measures decoded.old i m.breadth m.length }
{
    decoded[CHANNELS + TERM * i + BREADTH] = m.breadth;
    decoded[CHANNELS + TERM * i + LENGTH] = m.length;
}

pub fn put_tokens(decoded: &mut [u8; DECODED], channel: usize, count: u8)
    requires { (channel < channels) × (length decoded.old ≡ decoded_bytes) }
    ensures { decoded.new ≡ set decoded.old channel count }
{
    decoded[channel] = count;
}

// ---- measures

// Both measures of a term in one number: the breadth, and 256 for each step of the length. The walk answers in this
// form, because the compiler hands a number back in a register and a struct through memory: tried with the struct
// and the look-up in a function of its own, reading a table of expressions took 1.3 times as long.
fn packed(breadth: u8, length: u8) -> u16
    ensures breadth { breadth_in result ≡ breadth }
    ensures length { length_in result ≡ length }
{
    u16::from(breadth) + 256 * u16::from(length)
}

fn breadth_in(p: u16) -> u8
    ensures { result ≡ breadth_in p }
{
    (p % 256) as u8
}

fn length_in(p: u16) -> u8
    ensures { result ≡ length_in p }
{
    (p / 256) as u8
}

// The measures of a term without parts, in this form: breadth 1, length 0.
const ALONE: u16 = 1;

// The measures of two terms as one, side by side or as the alternatives of orElse.
fn of_both(left: u16, right: u16) -> u16
    requires { breadth_in left + breadth_in right < 256 }
    ensures breadth { breadth_in result ≡ breadth_in left + breadth_in right }
    ensures length { length_in result ≡ max (length_in left) (length_in right) }
{
    let breadth = breadth_in(left) + breadth_in(right);
    let length = length_in(left).max(length_in(right));
    packed(breadth, length)
}

// The measures of a term behind rd or wt, with that.
fn of_longer(rest: u16) -> u16
    requires { 1 + length_in rest < 256 }
    ensures breadth { breadth_in result ≡ breadth_in rest }
    ensures length { length_in result ≡ 1 + length_in rest }
{
    let length = 1 + length_in(rest);
    packed(breadth_in(rest), length)
}

// The measures that are stored of the term at a number.
fn stored_measures(decoded: &[u8; DECODED], i: usize) -> u16
    requires { i < max_terms }
    ensures breadth { breadth_in result ≡ breadth_at decoded.now i }
    ensures length { length_in result ≡ length_at decoded.now i }
{
    packed(breadth_at(decoded, i), length_at(decoded, i))
}

// The walk: the measures of the term at a number, over the unfolded term. References go to smaller numbers. The
// measures of the first `measured` terms stand in the decoded table: at a part among them the walk ends and looks them
// up; any other part is walked. Reading a table walks from each new term with those of all earlier terms stored; with
// none stored, the whole term is walked. The test stands before each call and not in a function of its own: tried so,
// reading took 1.08 times as long, since the compiler does not take a recursive function into its caller, and a call
// for each stored part costs more than the look.
fn walk(decoded: &[u8; DECODED], measured: usize, at: usize) -> u16
    requires { CanMeasure decoded.now measured at }
    ensures { MeasuresOf decoded.now measured at (breadth_in result) (length_in result) }
{
    match kind_at(decoded, at) {
        PAR | OR_ELSE => {
            let first = usize::from(first_at(decoded, at));
            let second = usize::from(second_at(decoded, at));
            let left = if first < measured {
                stored_measures(decoded, first)
            } else {
                walk(decoded, measured, first)
            };
            let right = if second < measured {
                stored_measures(decoded, second)
            } else {
                walk(decoded, measured, second)
            };
            of_both(left, right)
        }
        RD | WT => {
            let second = usize::from(second_at(decoded, at));
            let rest = if second < measured {
                stored_measures(decoded, second)
            } else {
                walk(decoded, measured, second)
            };
            of_longer(rest)
        }
        _ => ALONE,
    }
}

// The measures of the term at a number, where those of the first `measured` terms are stored. A term without parts needs
// no walk.
pub fn measures_of(decoded: &[u8; DECODED], measured: usize, at: usize) -> Measures
    requires { CanMeasure decoded.now measured at }
    ensures { MeasuresOf decoded.now measured at result.breadth result.length }
{
    let p = match kind_at(decoded, at) {
        PAR | OR_ELSE | RD | WT => walk(decoded, measured, at),
        _ => ALONE,
    };
    Measures {
        breadth: breadth_in(p),
        length: length_in(p),
    }
}

// 7: a process's width, or an expression's branches or length, is over its limit.
pub fn over_limit(kind: u8, m: Measures) -> bool
    ensures { LimitTested kind m.breadth m.length result }
{
    match table_records::class_of(kind) {
        Some(Class::Process) => MAX_WIDTH < m.breadth,
        _ => MAX_BRANCHES < m.breadth || MAX_LENGTH < m.length,
    }
}
