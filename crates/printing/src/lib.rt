// The words and numbers of the lines that the test programs print, said one after the other into a text that has room for so many bytes. What it has no room for is left
// out. Nothing is printed here: a program does that, with a line that is whole. (By functions and not by `Display`: the contract of each names its bytes, so that one that
// says a thing of another is refused.)

#![tactic(auto)]

ghost use Rattle.std.specs.Prelude.{◌≡◌, [], ◌∷◌, ◌+◌, ◌^◌, ◌<◌, ◌≤◌, ℕ, List, take};
ghost use Rattle.text.specs.Decimals.{digits, decimal};
ghost use Rattle.printing.specs.Said.{said};
ghost use Rattle.printing.specs.Words.{
  bars,
  number_or_byte,
  filled,
  letter_of,
  word,
  holds_text,
  kept_text,
  lent_text,
  closed_text,
  totals_text,
  users_text,
  zone_text,
  day_text,
  refused_text,
  refusal_by,
  refusal_text,
};

use rules::{Day, Refusal, ZoneDay};
use std::marker::Model;
use text::writing::Writer;

// A text of at most `N` bytes.
#[derive(Drop)]
pub struct Text<const N: usize> {
    bytes: [u8; N],
    end: usize,
}

// Clauses see what has been said.
impl<const N: usize> Model for Text<N> {
    ghost Value = { List ℕ };

    ghost view = { λ t. take t.end t.bytes };

    ghost invariant = { λ t. t.end ≤ N };
}

// A line of a program.
pub type Line = Text<512>;

impl<const N: usize> Text<N> {
    pub fn new() -> Self
        ensures { result ≡ [] }
    {
        Text {
            bytes: [0; N],
            end: 0,
        }
    }

    // What has been said.
    pub fn as_bytes(&self) -> &[u8]
        ensures { result.now ≡ self.now }
    {
        &self.bytes[..self.end]
    }

    pub fn say(&mut self, words: &[u8])
        ensures { self.new ≡ said N self.old words.now }
    {
        let n = (N - self.end).min(words.len());
        let bytes = &mut self.bytes[..];
        bytes[self.end..self.end + n].copy_from_slice(&words[..n]);
        self.end += n;
    }

    pub fn say_byte(&mut self, byte: u8)
        ensures { self.new ≡ said N self.old (byte ∷ []) }
    {
        self.say(&[byte]);
    }

    #[tactic(auto, using(crate::proofs::Spelled::put_fits, crate::proofs::Spelled::put_text))]
    pub fn say_count(&mut self, n: u64)
        ensures { self.new ≡ said N self.old (digits n) }
    {
        let mut text = [0u8; 20];
        let out = &mut text[..];
        let mut writer = Writer { out, end: 0 };
        writer.digits(n);
        let end = writer.end;
        self.say(&text[..end]);
    }

    #[tactic(auto, using(crate::proofs::Spelled::put_fits, crate::proofs::Spelled::put_text))]
    pub fn say_number(&mut self, x: i64)
        ensures { self.new ≡ said N self.old (decimal x) }
    {
        let mut text = [0u8; 20];
        let out = &mut text[..];
        let mut writer = Writer { out, end: 0 };
        writer.decimal(x);
        let end = writer.end;
        self.say(&text[..end]);
    }

    // ---- forms: each `|` of a form stands for a number, and parts the words of a list of words

    // A byte of a form: a number in place of a bar.
    #[tactic(auto, unfolding(crate::specs::Words::number_or_byte))]
    fn say_number_or_byte(&mut self, row: &[i64], seen: usize, byte: u8)
        ensures { self.new ≡ said N self.old (number_or_byte row.now seen byte) }
    {
        if byte == b'|' {
            self.say_number(checking::at(row, seen));
        } else {
            self.say_byte(byte);
        }
    }

    // A form with the numbers of a row.
    pub fn say_row(&mut self, form: &[u8], row: &[i64])
        ensures { self.new ≡ said N self.old (filled form.now row.now) }
    {
        let mut seen: usize = 0;
        for byte in form {
            self.say_number_or_byte(row, seen, *byte);
            seen = after(seen, *byte);
        }
    }

    // A byte of a list of words, if it is in the word that is asked for.
    #[tactic(auto, using(crate::proofs::Said::said_none), unfolding(crate::specs::Words::letter_of))]
    fn say_letter(&mut self, which: usize, seen: usize, byte: u8)
        ensures { self.new ≡ said N self.old (letter_of which seen byte) }
    {
        if byte != b'|' && seen == which {
            self.say_byte(byte);
        }
    }

    // A word of a list, by its number.
    pub fn say_word(&mut self, names: &[u8], which: usize)
        ensures { self.new ≡ said N self.old (word names.now which) }
    {
        let mut seen: usize = 0;
        for byte in names {
            self.say_letter(which, seen, *byte);
            seen = after(seen, *byte);
        }
    }

    // ---- verdicts

    // The words of a comparison after its mark.
    #[tactic(auto, using(crate::proofs::Said::said_then), unfolding(crate::specs::Words::holds_text))]
    pub fn say_holds(&mut self, words: &[u8], holds: bool)
        ensures { self.new ≡ said N self.old (holds_text words.now holds) }
    {
        self.say(&checking::mark(holds));
        self.say(words);
    }

    #[tactic(auto, using(crate::proofs::Said::said_then), unfolding(crate::specs::Words::kept_text))]
    pub fn say_kept(&mut self, words: &[u8], kept: bool)
        ensures { self.new ≡ said N self.old (kept_text words.now kept) }
    {
        self.say_holds(words, kept);
        self.say(b" kept");
    }

    // What was lent to a call that turned it away.
    #[tactic(auto, using(crate::proofs::Said::said_then), unfolding(crate::specs::Words::lent_text))]
    pub fn say_lent(&mut self, table: bool, quantity: bool, money: bool)
        ensures { self.new ≡ said N self.old (lent_text table quantity money) }
    {
        self.say_kept(b"table", table);
        self.say_kept(b"quantity", quantity);
        self.say_kept(b"money", money);
    }

    // ---- the record

    #[tactic(auto, using(crate::proofs::Said::said_none), unfolding(crate::specs::Words::closed_text))]
    fn say_closed(&mut self, closed: bool)
        ensures { self.new ≡ said N self.old (closed_text closed) }
    {
        if closed {
            self.say(b" closed");
        }
    }

    #[tactic(auto, unfolding(crate::specs::Words::totals_text))]
    fn say_totals(&mut self, sold: i64, bought: i64)
        ensures { self.new ≡ said N self.old (totals_text sold bought) }
    {
        self.say_row(b" sold | bought |", &[sold, bought]);
    }

    #[tactic(auto, using(crate::proofs::Said::said_then), unfolding(crate::specs::Words::zone_text))]
    fn say_zone(&mut self, zone_day: ZoneDay)
        ensures { self.new ≡ said N self.old (zone_text zone_day) }
    {
        self.say_number(zone_day.hours);
        self.say_closed(zone_day.closed);
        self.say_totals(zone_day.sold, zone_day.bought);
    }

    #[tactic(auto, unfolding(crate::specs::Words::users_text))]
    fn say_users(&mut self, users: i64, length: i64)
        ensures { self.new ≡ said N self.old (users_text users length) }
    {
        self.say_row(b"users |, length |", &[users, length]);
    }

    #[tactic(auto, using(crate::proofs::Said::said_then), unfolding(crate::specs::Words::day_text))]
    pub fn say_day(&mut self, day: Day)
        ensures { self.new ≡ said N self.old (day_text day) }
    {
        self.say_users(day.users, day.length);
        self.say(b", H ");
        self.say_zone(day.h);
        self.say(b", L ");
        self.say_zone(day.l);
    }

    #[tactic(auto, using(crate::proofs::Said::said_then), unfolding(crate::specs::Words::refused_text))]
    pub fn say_refused(&mut self, number: u64)
        ensures { self.new ≡ said N self.old (refused_text number) }
    {
        self.say(b": refused ");
        self.say_count(number);
    }

    // A refusal by its number, any there may be, and whether the record that came back is the one that was given.
    #[tactic(auto, using(crate::proofs::Said::said_then, checking::proofs::Equality::day_is), unfolding(crate::specs::Words::refusal_by))]
    pub fn say_refusal_by(&mut self, number: u64, answered: Day, given: Day)
        ensures { self.new ≡ said N self.old (refusal_by number answered given) }
    {
        self.say_refused(number);
        self.say_kept(b"record", answered == given);
    }

    #[tactic(auto, unfolding(crate::specs::Words::refusal_text))]
    pub fn say_refusal(&mut self, refusal: Refusal, given: Day)
        ensures { self.new ≡ said N self.old (refusal_text refusal given) }
    {
        self.say_refusal_by(refusal.cause.number(), refusal.day, given);
    }
}

// The bars up to a byte and with it.
fn after(seen: usize, byte: u8) -> usize
    requires { seen + 1 < 2 ^ 64 }
    ensures { result ≡ bars seen byte }
{
    if byte == b'|' { seen + 1 } else { seen }
}
