//! What is told beside the output of how a run ended.

use boss_manager::Status;
use std::alloc::{AllocError, Global};

/// One sentence for a status: what happened, and what to do about it, with the names among the program's words. Where all was done there
/// is one only for a check, a feed, an adoption or a shift that found neither of a journal's files. Where the catalogue was refused for a
/// point, it has that point's name.
pub fn advice(
    alloc: Global,
    status: Status,
    words: &Vec<String>,
    point: Option<&str>,
    has_journal: bool,
) -> Result<Option<String>, AllocError> {
    if status != Status::DONE {
        return Ok(Some(sentence(alloc, status, words, point)?));
    }
    let journal = journal_word(words);
    if has_journal || !tells_none(word_at(words, 0)) || journal == "-" {
        return Ok(None);
    }
    let sentence = format!(in alloc;
        "neither {journal} nor {journal}.b exists: there is no journal of that name yet"
    )?;
    Ok(Some(sentence))
}

fn sentence(
    alloc: Global,
    status: Status,
    words: &Vec<String>,
    point: Option<&str>,
) -> Result<String, AllocError> {
    let catalogue = word_at(words, 1);
    let journal = journal_word(words);
    if status == Status::USAGE {
        return String::from_str(alloc, USAGE);
    }
    if status == Status::CATALOGUE && word_at(words, 0) == ADOPT {
        let new = word_at(words, 2);
        return format!(in alloc;
            "the catalogue {catalogue}, or else {new}, was refused, as its line says; bossctl lint names the line, the key and what may stand there"
        );
    }
    if status == Status::CATALOGUE {
        return of_catalogue(alloc, catalogue, point);
    }
    if status == Status::JOURNAL {
        return format!(in alloc;
            "the journal {journal} was refused, as its line says; name this catalogue's journal, adopt it where the catalogue changed, or name a new one"
        );
    }
    if status == Status::ADOPTION && word_at(words, 0) == SHIFT {
        return format!(in alloc;
            "the moments of the journal {journal} were not taken back, as its line says; give that number of milliseconds or fewer"
        );
    }
    if status == Status::ADOPTION {
        let new = word_at(words, 2);
        return format!(in alloc;
            "the journal {journal} was not taken over under {new}, as its line says; end what holds that point, or let {new} have it as it was, and try again"
        );
    }
    if status == Status::RULES {
        let rules = word_at(words, 6);
        return format!(in alloc;
            "the rules {rules} were refused, as their line says; bossctl lint {catalogue} {rules} names the line, the key and what may stand there"
        );
    }
    if status == Status::PLAN {
        let plan = word_at(words, 7);
        return format!(in alloc;
            "the plan {plan} was refused, as its line says; bossctl lint {catalogue} - {plan} names the line, the key and what may stand there"
        );
    }
    if status == Status::KEYS {
        let keys = word_at(words, 8);
        return format!(in alloc;
            "the keys {keys} were refused, as their line says; bossctl lint {catalogue} - - {keys} names the line, the key and what may stand there"
        );
    }
    if status == Status::FILE_FAULT {
        return String::from_str(alloc, FILE_FAULT);
    }
    if status == Status::HOST_FAULT {
        let address = word_at(words, 3);
        return format!(in alloc;
            "no connection could be taken at {address}, as an earlier line says; it has to be an address of this machine with a free port, as 127.0.0.1:7000"
        );
    }
    String::from_str(alloc, of_this_run(status))
}

/// The job that has two catalogues before its journal.
const ADOPT: &str = "adopt";

/// The other job that may refuse a state.
const SHIFT: &str = "shift";

const USAGE: &str =
    "these words ask for nothing that it does; bossd help tells what it does, a job a line";

const FILE_FAULT: &str = "a file failed, as an earlier line says; mend that and start again";

/// What happened where no file of the words is concerned.
fn of_this_run(status: Status) -> &'static str {
    if status == Status::READ_FAULT {
        return "the standard input could not be read to its end; give it again from where its answers end";
    }
    if status == Status::WRITE_FAULT {
        return "the standard output could not be written; see where it leads";
    }
    if status == Status::NO_MEMORY {
        return "out of memory; free some and go on from where the answers end";
    }
    if status == Status::UNSTARTED {
        return "not all workers could be started; free some memory, or serve by fewer";
    }
    if status == Status::CLOCK_FAULT {
        return "the clock that counts from the boot could not be read; start again";
    }
    if status == Status::LINE_TOO_LONG {
        return "a line of the standard input has more than 65,535 bytes; shorten it and go on from there";
    }
    if status == Status::STANDBY {
        return "the feed was followed up to there and no further, as the line says; ask for it again from the number of events that a check of the journal tells";
    }
    if status == Status::TOO_MANY_LINES {
        return "the standard input has more than 4,294,967,296 lines; go on with the others in another run";
    }
    "it ended with a status that has no sentence"
}

/// What happened to a catalogue.
fn of_catalogue(alloc: Global, catalogue: &str, point: Option<&str>) -> Result<String, AllocError> {
    match point {
        Some(point) => format!(in alloc;
            "the catalogue {catalogue} was refused for its point {point}; bossctl lint {catalogue} names the line, the key and what may stand there"
        ),
        None => format!(in alloc;
            "the catalogue {catalogue} was refused, as its line says; bossctl lint {catalogue} names the line, the key and what may stand there"
        ),
    }
}

/// Whether the job of this name leaves it at that where a journal is not there.
fn tells_none(job: &str) -> bool {
    job == "check" || job == "feed" || job == ADOPT || job == SHIFT
}

/// The journal's name among the words: it stands behind one catalogue, or behind two.
fn journal_word(words: &Vec<String>) -> &str {
    let place = if word_at(words, 0) == ADOPT { 3 } else { 2 };
    word_at(words, place)
}

/// The word at this place, counted from 0, or an empty one.
pub fn word_at(words: &Vec<String>, place: usize) -> &str {
    match words.get(place) {
        Some(word) => word.as_str(),
        None => "",
    }
}
