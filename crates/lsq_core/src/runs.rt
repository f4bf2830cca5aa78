//! Lists of acts.

ghost use Rattle.std.specs.Prelude.{◌≡◌, ◌+◌, ◌++◌, ◌<◌, ◌≤◌, ◌^◌, length, take};
ghost use Rattle.lsq_core.specs.Runs.{IsLongest, after_acts, puts_of, put_list};

use crate::queue::Queue;
use el_base::Log;
use net_types::Act;

/// Makes acts, each with the token that it takes where it takes one, until one is not allowed or all are made.
/// Notes what they put, and answers how many were made. Takes no memory.
pub fn run_acts<Q: Queue>(queue: &mut Q, acts: &[(Act, u64)], puts: &mut Log<u64>) -> u64
    requires room { length acts.now ≤ puts.old.room }
    requires acts { length acts.now ≤ 2 ^ 32 }
    requires serial { (Q.state queue.old).queue.next ≤ 2 ^ 60 }
    ensures made { IsLongest (Q.state queue.old) acts.now result }
    ensures queue { Q.state queue.new ≡ after_acts (Q.state queue.old) (take result acts.now) }
    ensures puts { puts.new.items
        ≡ puts.old.items ++ puts_of (Q.state queue.old) (take result acts.now) }
    ensures room { puts.old.room ≤ puts.new.room + result }
{
    for at in 0..acts.len() {
        let (act, token) = acts[at];
        if !queue.can(act) {
            return at as u64;
        }
        note(puts, queue.act(act, token).put);
    }
    acts.len() as u64
}

/// Adds what an act puts, where it puts a value.
fn note(puts: &mut Log<u64>, put: Option<u64>)
    requires { 0 < puts.old.room }
    ensures items { puts.new.items ≡ puts.old.items ++ put_list put }
    ensures room { puts.old.room ≤ puts.new.room + 1 }
{
    if let Some(value) = put {
        puts.add(value);
    }
}
