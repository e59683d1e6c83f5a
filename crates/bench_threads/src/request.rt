//! The request in the program's words.

ghost use Rattle.std.specs.Prelude.{◌≡◌, ◌↔◌, IfSome, IsTrue, MatchOption, codes, map, string_bytes, ℕ};
ghost use Rattle.bench_threads.specs.Request.{AreWordsOf, IsPlacingWord, IsRequest, IsRounds, IsThreads};
ghost use Rattle.bench_threads.specs.declared.placing.Placing.{Placing};
ghost use Rattle.bench_threads.specs.declared.request.Request.{Request};

use crate::placing::Placing;
use read_section::WORKERS;

/// The number of threads, the number of rounds of each, the placing of their workers, and whether the time is asked
/// for.
#[derive(Clone, Copy, Debug)]
pub struct Request {
    pub threads: usize,
    pub rounds: u32,
    pub placing: Placing,
    pub is_timed: bool,
}

fn thread_count(text: &str) -> Option<usize>
    ensures { MatchOption result ((threads : ℕ) → IsThreads text.now threads → ⊥) (IsThreads text.now) }
{
    match text.parse::<usize>() {
        Ok(threads) if (1..=WORKERS).contains(&threads) => Some(threads),
        _ => None,
    }
}

fn round_count(text: &str) -> Option<u32>
    ensures { MatchOption result ((rounds : ℕ) → IsRounds text.now rounds → ⊥) (IsRounds text.now) }
{
    text.parse::<u32>().ok()
}

fn placing_of(word: &str) -> Option<Placing>
    ensures { MatchOption result ((placing : Placing) → IsPlacingWord word.now placing → ⊥) (IsPlacingWord word.now) }
{
    match word {
        "spread" => Some(Placing::Spread),
        "side-by-side" => Some(Placing::SideBySide),
        _ => None,
    }
}

fn asks_for_time(word: &str) -> bool
    ensures { IsTrue result ↔ (word.now ≡ codes "--time") }
{
    matches!(word, "--time")
}

// Returns the request of the first three words.
fn request_of(threads: &str, rounds: &str, placing: &str, is_timed: bool) -> Option<Request>
    ensures request { MatchOption result ((request : Request) → AreWordsOf threads.now rounds.now placing.now request → ⊥)
        (AreWordsOf threads.now rounds.now placing.now) }
    ensures timed { IfSome result (λ request. request.is_timed ≡ is_timed) }
{
    Some(Request {
        threads: thread_count(threads)?,
        rounds: round_count(rounds)?,
        placing: placing_of(placing)?,
        is_timed,
    })
}

/// Reads the request that the words are. `None` if they are not a request.
pub fn read_request(words: &[String]) -> Option<Request>
    ensures { MatchOption result ((request : Request) → IsRequest (map string_bytes words.now) request → ⊥)
        (IsRequest (map string_bytes words.now)) }
{
    match words {
        [threads, rounds, placing] => {
            request_of(threads.as_str(), rounds.as_str(), placing.as_str(), false)
        }
        [threads, rounds, placing, time] if asks_for_time(time.as_str()) => {
            request_of(threads.as_str(), rounds.as_str(), placing.as_str(), true)
        }
        _ => None,
    }
}
