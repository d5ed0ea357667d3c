ghost use Rattle.boss_words.specs.Words.{texts, job_of, script_of, serve_of, check_of, adopt_of, shift_of, shift_by, feed_of, standby_of, load_of, alone_of, optional_of, file_of};
ghost use Rattle.boss_words.specs.Given.{Gives, HasWorkers};
ghost use Rattle.boss_words.specs.declared.read.WordsRefusal.TheVariants.{NoMemory};
ghost use Rattle.std.specs.Prelude.{◌≡◌, IfOk};

use crate::number::{event_number, number};
use crate::{Job, Word};
use boss_model::MOST_WORKERS;
use std::alloc::{AllocError, Global};
use std::error::Error;
use std::fmt;

/// Why the words gave no job.
#[derive(Clone, Copy, Debug, PartialEq, Eq)]
pub enum WordsRefusal {
    /// They are in no row of the table of words.
    Usage,
    /// No memory was to be had. This says nothing of the words.
    NoMemory,
}

impl fmt::Display for WordsRefusal {
    fn fmt<W: fmt::Write>(&self, f: &mut fmt::Formatter<W>) -> fmt::Result {
        f.write_str(match self {
            WordsRefusal::Usage => "the words ask for no job",
            WordsRefusal::NoMemory => "out of memory",
        })
    }
}

impl Error for WordsRefusal {}

impl From<AllocError> for WordsRefusal {
    ghost from_gives = { λ _ refusal. refusal ≡ NoMemory };

    fn from(_error: AllocError) -> Self {
        WordsRefusal::NoMemory
    }
}

/// The job that the words ask for; they do not include the program's own name. No word is an option, but for `--help` and `--version`,
/// which are `help` and `version` too. A server has 1 to 1,024 workers.
pub fn read_words(alloc: Global, words: &Vec<String>) -> Result<Job, WordsRefusal>
    ensures job { Gives result (job_of (texts words.now.items)) }
    ensures workers { IfOk result HasWorkers }
{
    let [job, arguments @ ..] = words.as_slice() else {
        return Err(WordsRefusal::Usage);
    };
    match job.as_str() {
        "script" => script(alloc, arguments),
        "serve" => serve(alloc, arguments),
        "check" => check(alloc, arguments),
        "adopt" => adopt(alloc, arguments),
        "shift" => shift(alloc, arguments),
        "feed" => feed(alloc, arguments),
        "standby" => standby(alloc, arguments),
        "load" => load(arguments),
        "help" => alone(Job::Help, arguments),
        "--help" => alone(Job::Help, arguments),
        "version" => alone(Job::Version, arguments),
        "--version" => alone(Job::Version, arguments),
        _ => Err(WordsRefusal::Usage),
    }
}

/// `script CATALOGUE JOURNAL`
fn script(alloc: Global, arguments: &[String]) -> Result<Job, WordsRefusal>
    ensures job { Gives result (script_of (texts arguments.now)) }
    ensures workers { IfOk result HasWorkers }
{
    let [catalogue, journal] = arguments else {
        return Err(WordsRefusal::Usage);
    };
    let catalogue = Word::new(alloc, catalogue.as_str())?;
    let journal = Word::new(alloc, journal.as_str())?;
    Ok(Job::Script { catalogue, journal })
}

/// `serve CATALOGUE JOURNAL ADDRESS WORKERS CONNECTIONS`, and then RULES, PLAN and KEYS, of which the last,
/// the last two or all may be left out.
fn serve(alloc: Global, arguments: &[String]) -> Result<Job, WordsRefusal>
    ensures job { Gives result (serve_of (texts arguments.now)) }
    ensures workers { IfOk result HasWorkers }
{
    let [
        catalogue,
        journal,
        address,
        workers,
        connections,
        optional @ ..,
    ] = arguments
    else {
        return Err(WordsRefusal::Usage);
    };
    let workers = number(workers.as_str(), 1, MOST_WORKERS as u32).ok_or(WordsRefusal::Usage)?;
    let connections = number(connections.as_str(), 1, u32::MAX).ok_or(WordsRefusal::Usage)?;
    let catalogue = Word::new(alloc, catalogue.as_str())?;
    let journal = Word::new(alloc, journal.as_str())?;
    let address = Word::new(alloc, address.as_str())?;
    let (rules, plan, keys) = optional_files(alloc, optional)?;
    Ok(Job::Serve {
        catalogue,
        journal,
        address,
        workers,
        connections,
        rules,
        plan,
        keys,
    })
}

/// The files of the words after those that a server has to have: RULES, PLAN and KEYS.
fn optional_files(
    alloc: Global,
    optional: &[String],
) -> Result<(Option<Word>, Option<Word>, Option<Word>), WordsRefusal>
    ensures { Gives result (optional_of (texts optional.now)) }
{
    match optional {
        [] => Ok((None, None, None)),
        [rules] => {
            let rules = file_word(alloc, rules.as_str())?;
            Ok((rules, None, None))
        }
        [rules, plan] => {
            let rules = file_word(alloc, rules.as_str())?;
            let plan = file_word(alloc, plan.as_str())?;
            Ok((rules, plan, None))
        }
        [rules, plan, keys] => {
            let rules = file_word(alloc, rules.as_str())?;
            let plan = file_word(alloc, plan.as_str())?;
            let keys = file_word(alloc, keys.as_str())?;
            Ok((rules, plan, keys))
        }
        _ => Err(WordsRefusal::Usage),
    }
}

/// A file that may be left out: its name, or `-` for none.
fn file_word(alloc: Global, text: &str) -> Result<Option<Word>, WordsRefusal>
    ensures { Gives result (file_of text.now) }
{
    if text == "-" {
        return Ok(None);
    }
    let word = Word::new(alloc, text)?;
    Ok(Some(word))
}

/// `check CATALOGUE JOURNAL`
fn check(alloc: Global, arguments: &[String]) -> Result<Job, WordsRefusal>
    ensures job { Gives result (check_of (texts arguments.now)) }
    ensures workers { IfOk result HasWorkers }
{
    let [catalogue, journal] = arguments else {
        return Err(WordsRefusal::Usage);
    };
    let catalogue = Word::new(alloc, catalogue.as_str())?;
    let journal = Word::new(alloc, journal.as_str())?;
    Ok(Job::Check { catalogue, journal })
}

/// `adopt OLD NEW JOURNAL`
fn adopt(alloc: Global, arguments: &[String]) -> Result<Job, WordsRefusal>
    ensures job { Gives result (adopt_of (texts arguments.now)) }
    ensures workers { IfOk result HasWorkers }
{
    let [old, new, journal] = arguments else {
        return Err(WordsRefusal::Usage);
    };
    let old = Word::new(alloc, old.as_str())?;
    let new = Word::new(alloc, new.as_str())?;
    let journal = Word::new(alloc, journal.as_str())?;
    Ok(Job::Adopt { old, new, journal })
}

/// `shift CATALOGUE JOURNAL BY`
fn shift(alloc: Global, arguments: &[String]) -> Result<Job, WordsRefusal>
    ensures job { Gives result (shift_of (texts arguments.now)) }
    ensures workers { IfOk result HasWorkers }
{
    let [catalogue, journal, by] = arguments else {
        return Err(WordsRefusal::Usage);
    };
    let by = length_of_time(by.as_str()).ok_or(WordsRefusal::Usage)?;
    let catalogue = Word::new(alloc, catalogue.as_str())?;
    let journal = Word::new(alloc, journal.as_str())?;
    Ok(Job::Shift {
        catalogue,
        journal,
        by,
    })
}

/// A length of time in milliseconds, as the number of an event is spelled: 1 to 2^62 - 1.
fn length_of_time(text: &str) -> Option<u64>
    ensures { result ≡ shift_by text.now }
{
    let by = event_number(text)?;
    if by < 1 {
        return None;
    }
    Some(by)
}

/// `feed CATALOGUE JOURNAL FROM`
fn feed(alloc: Global, arguments: &[String]) -> Result<Job, WordsRefusal>
    ensures job { Gives result (feed_of (texts arguments.now)) }
    ensures workers { IfOk result HasWorkers }
{
    let [catalogue, journal, from] = arguments else {
        return Err(WordsRefusal::Usage);
    };
    let from = event_number(from.as_str()).ok_or(WordsRefusal::Usage)?;
    let catalogue = Word::new(alloc, catalogue.as_str())?;
    let journal = Word::new(alloc, journal.as_str())?;
    Ok(Job::Feed {
        catalogue,
        journal,
        from,
    })
}

/// `standby CATALOGUE JOURNAL`
fn standby(alloc: Global, arguments: &[String]) -> Result<Job, WordsRefusal>
    ensures job { Gives result (standby_of (texts arguments.now)) }
    ensures workers { IfOk result HasWorkers }
{
    let [catalogue, journal] = arguments else {
        return Err(WordsRefusal::Usage);
    };
    let catalogue = Word::new(alloc, catalogue.as_str())?;
    let journal = Word::new(alloc, journal.as_str())?;
    Ok(Job::Standby { catalogue, journal })
}

/// `load COUNT SEED`
fn load(arguments: &[String]) -> Result<Job, WordsRefusal>
    ensures job { Gives result (load_of (texts arguments.now)) }
    ensures workers { IfOk result HasWorkers }
{
    let [count, seed] = arguments else {
        return Err(WordsRefusal::Usage);
    };
    let count = number(count.as_str(), 1, 10_000).ok_or(WordsRefusal::Usage)?;
    let seed = number(seed.as_str(), 0, u32::MAX).ok_or(WordsRefusal::Usage)?;
    Ok(Job::Load { count, seed })
}

/// A job that has no words but its own.
fn alone(job: Job, arguments: &[String]) -> Result<Job, WordsRefusal>
    requires { HasWorkers job }
    ensures job { Gives result (alone_of job (texts arguments.now)) }
    ensures workers { IfOk result HasWorkers }
{
    let [] = arguments else {
        return Err(WordsRefusal::Usage);
    };
    Ok(job)
}
