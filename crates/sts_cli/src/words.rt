//! The words of the program.
ghost use Rattle.std.specs.Prelude.{◌≡◌, ◌≢◌, ◌<◌, ◌≤◌, ◌^◌, ◌∷◌, [], ℕ, IfSome, None};
ghost use Rattle.std.specs.Fmt.{decimal};
ghost use Rattle.sts_cli.specs.Words.{AreWords, HasRange, IsForm, words_of};
ghost use Rattle.sts_cli.specs.declared.words.Form.{Form};
ghost use Rattle.sts_cli.specs.declared.words.Form.TheVariants.{Gen};

use itoa::Buffer;

/// What the program is asked to do.
#[derive(Clone, Copy, Debug, PartialEq, Eq)]
pub enum Form {
    /// Run the scenario that is read.
    OfScenario(Aim),
    /// Say something of the log that is read.
    OfLog(Job),
    /// Run a scenario that is made up: a ring of so many switches, whose script is drawn from a seed. Nothing is read.
    Gen { seed: u64, size: u16 },
}

/// What a scenario is run for.
#[derive(Clone, Copy, Debug, PartialEq, Eq)]
pub enum Aim {
    /// Its log, the verdicts at its end and, where an invariant is violated, the inputs that are enough for it.
    Find,
    /// Its log.
    Record,
}

/// What the program is asked to say of a log.
#[derive(Clone, Copy, Debug, PartialEq, Eq)]
pub enum Job {
    /// The verdicts on its invariants, at its end.
    Check,
    /// Its replay with all lines of its script.
    Replay,
    /// The inputs that are enough for the first invariant that is violated at its end.
    Reduce,
}

/// The form that some words are, if they are one.
pub(crate) fn form_of(words: &[String]) -> Option<Form>
    ensures some { IfSome result (λ form. AreWords words.now form) }
    ensures none { (result ≡ None) → ¬ IsForm words.now }
{
    match words {
        [word] => named(word.as_str()),
        [word, seed, size] => made(word.as_str(), seed.as_str(), size.as_str()),
        _ => None,
    }
}

// The form of one word.
fn named(word: &str) -> Option<Form>
    ensures some { IfSome result (λ form. (word.now ∷ [] ≡ words_of form) × HasRange form) }
    ensures none { (result ≡ None) → (form : Form) → word.now ∷ [] ≢ words_of form }
{
    match word {
        "find" => Some(Form::OfScenario(Aim::Find)),
        "record" => Some(Form::OfScenario(Aim::Record)),
        "check" => Some(Form::OfLog(Job::Check)),
        "replay" => Some(Form::OfLog(Job::Replay)),
        "reduce" => Some(Form::OfLog(Job::Reduce)),
        _ => None,
    }
}

// The form of three words.
fn made(word: &str, seed: &str, size: &str) -> Option<Form>
    ensures some { IfSome result (λ form. (word.now ∷ seed.now ∷ size.now ∷ [] ≡ words_of form) × HasRange form) }
    ensures none { (result ≡ None) → (form : Form) → HasRange form → word.now ∷ seed.now ∷ size.now ∷ [] ≢ words_of form }
{
    if word != "gen" {
        return None;
    }
    let seed = number_of(seed)?;
    let size = size_of(size)?;
    Some(Form::Gen { seed, size })
}

// How many switches a word asks for.
fn size_of(word: &str) -> Option<u16>
    ensures some { IfSome result (λ size. (word.now ≡ decimal size) × (3 ≤ size) × (size ≤ 64)) }
    ensures none { (result ≡ None) → (size : ℕ) → 3 ≤ size → size ≤ 64 → word.now ≢ decimal size }
{
    let size = number_of(word)?;
    if size < 3 || size > 64 {
        return None;
    }
    Some(size as u16)
}

// The number that a word is: decimal digits, without a sign or a zero before others.
fn number_of(word: &str) -> Option<u64>
    ensures some { IfSome result (λ number. word.now ≡ decimal number) }
    ensures small { IfSome result (λ number. number < 2 ^ 64) }
    ensures none { (result ≡ None) → (number : ℕ) → number < 2 ^ 64 → word.now ≢ decimal number }
{
    let number: u64 = word.parse().ok()?;
    let mut buffer = Buffer::new();
    if buffer.format(number) != word {
        return None;
    }
    Some(number)
}
