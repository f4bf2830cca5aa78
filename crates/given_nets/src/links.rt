//! What the two ends of a link answer, both in one thread.
ghost use Rattle.std.specs.Prelude.{◌≡◌, ◌≤◌};
ghost use Rattle.elastic_link.specs.Ends.{credits_repaid, repaid_stamp};

use anyhow::{Result, bail};
use elastic_link::{PutEnd, TakeEnd, Token, link};
use row_fields::Output;
use std::alloc::Global;

/// Stamps and numbers of credits stay below it.
const BOUND: u64 = 1 << 62;

/// Both ends of a link, the greatest stamp of a credit so far, and how many were repaid.
#[derive(Drop)]
struct Ends {
    put: PutEnd,
    take: TakeEnd,
    last: u64,
    repaid: u64,
    ghost last_stamp: { repaid_stamp take ≤ last },
    ghost repaid_is: { credits_repaid take ≡ repaid },
}

/// A call on the ends.
#[derive(Clone, Copy)]
enum Call {
    Ready,
    Peek,
    Take { stamp: u64 },
    Flush,
    Put(Token),
}

impl Ends {
    /// Puts a token where a credit is in hand and the ring has a free slot, and says whether it did.
    fn put(&mut self, token: Token) -> bool {
        if token.stamp >= BOUND || self.put.ready().is_none() {
            return false;
        }
        self.put.put(token).is_ok()
    }

    /// Takes the next token, where there is one, and repays its credit with a stamp that is not below the last one.
    fn take(&mut self, stamp: u64) -> Option<Token> {
        let now = stamp.max(self.last);
        if now >= BOUND || self.repaid >= BOUND || self.take.peek().is_none() {
            return None;
        }
        let token = self.take.take();
        self.take.repay(now);
        self.last = now;
        self.repaid += 1;
        Some(token)
    }
}

/// Writes what each call on the ends of a link of so many slots answers. Calls stand with `;` between two.
pub fn put_calls(alloc: Global, slots: &str, calls: &str, out: &mut Output) -> Result<()> {
    let slots: u32 = slots.parse()?;
    if slots == 0 || slots > 1_024 {
        bail!("a link has 1 to 1,024 slots");
    }
    match link(alloc, slots) {
        Ok((put, take)) => {
            let mut ends = Ends {
                put,
                take,
                last: 0,
                repaid: 0,
            };
            put_answers(alloc, &mut ends, calls, out)
        }
        Err(_) => bail!("want of memory"),
    }
}

/// Makes calls, and writes their answers with a space between two.
fn put_answers(alloc: Global, ends: &mut Ends, calls: &str, out: &mut Output) -> Result<()> {
    let mut is_first = true;
    for call in calls.split(';') {
        if !is_first {
            out.word(" ");
        }
        is_first = false;
        let words: Vec<&str> = call.split(' ').collect(alloc)?;
        put_answer(ends, call_of(words.as_slice())?, out);
    }
    Ok(())
}

/// The call that words tell.
fn call_of(words: &[&str]) -> Result<Call> {
    match words {
        ["take", stamp] => Ok(Call::Take {
            stamp: stamp.parse()?,
        }),
        ["put", value, stamp] => Ok(Call::Put(Token {
            value: value.parse()?,
            stamp: stamp.parse()?,
        })),
        [word] => call_of_word(word),
        _ => bail!("no such call"),
    }
}

/// The call that one word tells.
fn call_of_word(word: &str) -> Result<Call> {
    match word {
        "ready" => Ok(Call::Ready),
        "peek" => Ok(Call::Peek),
        "flush" => Ok(Call::Flush),
        _ => bail!("no such call"),
    }
}

/// Makes one call and writes its answer.
fn put_answer(ends: &mut Ends, call: Call, out: &mut Output) {
    match call {
        Call::Ready => put_stamp(ends.put.ready(), out),
        Call::Peek => put_token(ends.take.peek(), out),
        Call::Take { stamp } => put_token(ends.take(stamp), out),
        Call::Flush => {
            ends.take.flush();
            out.word(".");
        }
        Call::Put(token) => out.word(if ends.put(token) { "ok" } else { "no" }),
    }
}

/// Writes a stamp.
fn put_stamp(stamp: Option<u64>, out: &mut Output) {
    match stamp {
        Some(stamp) => out.number(stamp),
        None => out.word("none"),
    }
}

/// Writes a token.
fn put_token(token: Option<Token>, out: &mut Output) {
    match token {
        Some(Token { value, stamp }) => {
            out.number(value);
            out.word("@");
            out.number(stamp);
        }
        None => out.word("none"),
    }
}
