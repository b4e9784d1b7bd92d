ghost use Rattle.std.specs.Prelude.{◌≡◌, ◌≤◌, ◌+◌, ◌++◌, ◌==◌, IfOk, IfSome, length, string_bytes};
ghost use Rattle.std.specs.Cmp.Lexicographic.{slice_cmp, pointwise};
ghost use Rattle.std.specs.Ordering.{nat_cmp, as_partial_cmp};
ghost use Rattle.std.specs.Cmp.Rules.{comparing, hashing};
ghost use Rattle.std.specs.Hash as fed;
ghost use Rattle.std.specs.Str.{IsUtf8};
ghost use Rattle.std.proofs.Common.{rules};
ghost use Rattle.base.specs.Parts.{bytes_from_to};

use std::alloc::{AllocError, Global};
use std::cmp::Ordering;
use std::convert::AsStr;
use std::hash::{Hash, Hasher};
use std::marker::Model;
use std::rc::RcStr;
use std::str::from_utf8_unchecked;

/// A text, seen by contracts as the list of its UTF-8 bytes. Copies of a text, and texts that stand
/// in it, share one text in memory: each is the bytes of a whole from `start` to before `end`. A
/// text of 2^32 bytes or more is refused as want of memory, so that a text takes two words.
pub struct Text {
    whole: RcStr,
    start: u32,
    end: u32,
}

// By one call at each exit of who holds one: a derived Drop would let go of each part there.
impl Drop for Text {
    fn drop(self) {
        let Text {
            whole: _whole,
            start: _start,
            end: _end,
        } = self;
    }
}

impl Model for Text {
    ghost use Rattle.std.specs.Prelude.{◌≤◌, ℕ, List, length};
    ghost use Rattle.std.specs.Str.{IsUtf8};
    ghost use Rattle.std.specs.Rc.{rc_str_bytes};
    ghost use Rattle.base.specs.Parts.{bytes_from_to};

    ghost Value = { List ℕ };

    ghost view = { λ t. bytes_from_to t.start t.end (rc_str_bytes t.whole) };

    ghost invariant = { λ t. (t.start ≤ t.end) × (t.end ≤ length (rc_str_bytes t.whole))
        × IsUtf8 (bytes_from_to t.start t.end (rc_str_bytes t.whole)) };
}

/// The number of its bytes.
fn size(text: &str) -> Result<u32, AllocError>
    ensures { IfOk result (λ n. n ≡ length text.now) }
{
    match u32::try_from(text.len()) {
        Ok(size) => Ok(size),
        Err(_) => Err(AllocError),
    }
}

/// Where the text ends in the whole, if it stands there from `start` on.
fn end_of(whole: &str, start: u32, text: &str) -> Option<u32>
    ensures { IfSome result (λ end. (end ≡ start + length text.now) × (end ≤ length whole.now)
        × (bytes_from_to start end whole.now ≡ text.now)) }
{
    let end = start.checked_add(size(text).ok()?)?;
    if end as usize > whole.len() {
        return None;
    }
    if &whole.as_bytes()[start as usize..end as usize] == text.as_bytes() {
        Some(end)
    } else {
        None
    }
}

/// The position of a byte of a part in the whole, of which the part is the bytes from `start` to
/// before `end`.
fn position_in(start: u32, end: u32, byte: usize) -> u32
    requires { start + byte ≤ end }
    ensures { result ≡ start + byte }
{
    start + byte as u32
}

impl Text {
    /// A copy of a text.
    pub fn new(alloc: Global, text: &str) -> Result<Text, AllocError>
        ensures { IfOk result (λ t. t ≡ text.now) }
    {
        Ok(Text {
            whole: RcStr::from_str(alloc, text)?,
            start: 0,
            end: size(text)?,
        })
    }

    /// The text of a string.
    pub fn from_string(text: String) -> Result<Text, AllocError>
        ensures { IfOk result (λ t. t ≡ string_bytes text) }
    {
        let whole = RcStr::from_string(text)?;
        let end = size(whole.as_str())?;
        Ok(Text {
            whole,
            start: 0,
            end,
        })
    }

    /// Two texts in a row.
    pub fn joined(alloc: Global, first: &str, second: &str) -> Result<Text, AllocError>
        ensures { IfOk result (λ t. t ≡ first.now ++ second.now) }
    {
        let room = first.len().saturating_add(second.len());
        let mut text = String::with_capacity(alloc, room)?;
        text.push_str(first)?;
        text.push_str(second)?;
        Text::from_string(text)
    }

    /// Its characters.
    pub fn as_str(&self) -> &str
        ensures text { result.now ≡ self.now }
        ensures utf8 { IsUtf8 self.now }
    {
        let bytes = self.whole.as_bytes();
        unsafe { from_utf8_unchecked(&bytes[self.start as usize..self.end as usize]) }
    }

    /// Whether it is this text; where the lengths differ, no byte is looked at.
    pub fn spells(&self, text: &str) -> bool
        ensures { result ≡ pointwise ◌==◌ self.now text.now }
    {
        (self.end - self.start) as usize == text.len() && self.as_str() == text
    }

    /// The same text, shared.
    pub fn share(&self) -> Result<Text, AllocError>
        ensures { IfOk result (λ t. t ≡ self.now) }
    {
        Ok(Text {
            whole: self.whole.clone()?,
            start: self.start,
            end: self.end,
        })
    }

    /// The text from byte `start` to before byte `end` of this one, shared with it.
    #[tactic(auto, using(crate::proofs::Parts::part_of_part, crate::proofs::Parts::within_part))]
    pub fn slice(&self, start: usize, end: usize) -> Result<Text, AllocError>
        requires order { start ≤ end }
        requires within { end ≤ length self.now }
        requires text { IsUtf8 (bytes_from_to start end self.now) }
        ensures { IfOk result (λ t. t ≡ bytes_from_to start end self.now) }
    {
        Ok(Text {
            whole: self.whole.clone()?,
            start: position_in(self.start, self.end, start),
            end: position_in(self.start, self.end, end),
        })
    }

    /// A text that stands in this one from byte `start` on, shared with it; a copy where it does
    /// not stand there.
    pub fn part(&self, alloc: Global, start: usize, text: &str) -> Result<Text, AllocError>
        ensures { IfOk result (λ t. t ≡ text.now) }
    {
        let start = self
            .start
            .saturating_add(u32::try_from(start).unwrap_or(u32::MAX));
        let Some(end) = end_of(&self.whole, start, text) else {
            return Text::new(alloc, text);
        };
        Ok(Text {
            whole: self.whole.clone()?,
            start,
            end,
        })
    }
}

impl AsStr for Text {
    ghost text = { λ t. t };

    fn as_str(&self) -> &str {
        Text::as_str(self)
    }
}

impl Clone for Text {
    ghost is_clone = { λ t copy. copy ≡ t };

    fn clone(&self) -> Result<Text, AllocError> {
        self.share()
    }
}

impl PartialEq for Text {
    ghost eq = { pointwise ◌==◌ };

    ghost laws = { Prim.search (comparing, rules) };

    fn eq(&self, other: &Text) -> bool {
        self.end - self.start == other.end - other.start && self.as_str() == other.as_str()
    }
}

impl Eq for Text {
    ghost laws = { Prim.search (comparing, rules) };
}

impl Hash for Text {
    ghost hash_input = { fed.str };

    ghost respects_eq = { Prim.search (hashing, rules) };

    fn hash<H: Hasher>(&self, state: &mut H) {
        self.as_str().hash(state);
    }
}

impl PartialOrd for Text {
    ghost partial_cmp = { as_partial_cmp (slice_cmp nat_cmp) };

    ghost laws = { Prim.search (comparing, rules) };

    fn partial_cmp(&self, other: &Text) -> Option<Ordering> {
        Some(self.cmp(other))
    }
}

impl Ord for Text {
    ghost cmp = { slice_cmp nat_cmp };

    ghost total = { Prim.search (comparing, rules) };

    ghost matches_partial_cmp = { Prim.search (comparing, rules) };

    ghost matches_eq = { Prim.search (comparing, rules) };

    fn cmp(&self, other: &Text) -> Ordering {
        self.as_str().cmp(other.as_str())
    }
}
