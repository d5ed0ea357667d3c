ghost use Rattle.std.specs.Prelude.{vec_len};
ghost use Rattle.boss_jobs.specs.Jobs.{world};
ghost use Rattle.boss_manager.specs.ByWords.{DoesJob};
ghost use Rattle.boss_manager.specs.Nexts.{HasWorkers};
ghost use Rattle.boss_words.specs.Words.{job_of, texts};

use crate::jobs::{adopt, check, feed, script, shift, standby};
use crate::{Next, ServeJob};
use boss_files::Files;
use boss_jobs::{Status, do_load, say_help, say_usage, say_version};
use boss_outside::{Actuators, Hears, Sink};
use boss_words::{Job, WordsRefusal, read_words};
use std::alloc::Global;

/// Does the job that the words ask for, but for a server, which is handed back.
pub fn do_words<F: Files, S: Hears<K>, K: Sink, A: Actuators>(
    alloc: Global,
    words: &Vec<String>,
    files: &mut F,
    source: &mut S,
    sink: &mut K,
    devices: &mut Vec<A>,
) -> Next
    ensures does { DoesJob F.Files S.Source K.Sink A.Actuators (vec_len devices.old) (job_of (texts words.now.items))
        (world files.old source.old sink.old devices.old.items) (world files.new source.new sink.new devices.new.items) result }
    ensures workers { HasWorkers result }
{
    match read_words(alloc, words) {
        Ok(Job::Script { catalogue, journal }) => Next::Done(script(
            alloc, &catalogue, &journal, files, source, sink, devices,
        )),
        Ok(Job::Check { catalogue, journal }) => Next::Done(check(
            alloc, &catalogue, &journal, files, source, sink, devices,
        )),
        Ok(
            Job::Serve {
                catalogue,
                journal,
                address,
                workers,
                connections,
                rules,
                plan,
                keys,
            },
        ) => Next::Serve(ServeJob {
            catalogue,
            journal,
            address,
            workers,
            connections,
            rules,
            plan,
            keys,
        }),
        Ok(Job::Adopt { old, new, journal }) => Next::Done(adopt(
            alloc, &old, &new, &journal, files, source, sink, devices,
        )),
        Ok(
            Job::Shift {
                catalogue,
                journal,
                by,
            },
        ) => Next::Done(shift(
            alloc, &catalogue, &journal, by, files, source, sink, devices,
        )),
        Ok(
            Job::Feed {
                catalogue,
                journal,
                from,
            },
        ) => Next::Done(feed(
            alloc, &catalogue, &journal, from, files, source, sink, devices,
        )),
        Ok(Job::Standby { catalogue, journal }) => Next::Done(standby(
            alloc, &catalogue, &journal, files, source, sink, devices,
        )),
        Ok(Job::Load { count, seed }) => Next::Done(do_load(alloc, count, seed, sink)),
        Ok(Job::Help) => Next::Done(say_help(sink)),
        Ok(Job::Version) => Next::Done(say_version(sink)),
        Err(WordsRefusal::Usage) => Next::Done(say_usage(sink)),
        Err(WordsRefusal::NoMemory) => Next::Done(Status::NO_MEMORY),
    }
}
