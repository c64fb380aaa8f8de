ghost use Rattle.std.specs.Prelude.{◌≡◌, ◌≤◌, IfOk, IfSome, map};
ghost use Rattle.std.specs.Option.{option_and_then};
ghost use Rattle.clap.specs.Words.{first_value, found_of, rows_of};
ghost use Rattle.clap.specs.Walk.{first_of};
ghost use Rattle.icet_words.specs.CommandLine.{job_of, strategy_of, single_of, number_at, settings_at, schedule_at, command_from, reading, HasDigits, HasNumber, HasNumbers};
ghost use Rattle.std.specs.Prelude.{codes, option_map, ◌<◌, ◌^◌};
ghost use Rattle.std.specs.Str.Parse.{IsNumeral, digits_value, without_leading_plus};

use crate::job::Job;
use crate::parsing::parse;
use crate::schedule::{Schedule, schedule_of};
use clap::ArgMatches;
use icet_base::NoMemory;
use icet_multi::{Settings, Single, Strategy};
use std::alloc::Global;
use std::marker::Model;

/// What the words ask for.
#[derive(Drop)]
pub struct Command {
    job: Job,
    settings: Settings,
    cap: u32,
    workers: u32,
    burst: u32,
    strands: u32,
    schedule: Schedule,
    seed: u64,
}

impl Model for Command {
    ghost use Rattle.icet_words.specs.CommandLine.{Command as CommandView, IsInRange};

    ghost Value = { CommandView };

    ghost view = { λ c. record { job = c.job; settings = c.settings; cap = c.cap; workers = c.workers; burst = c.burst; strands = c.strands; schedule = c.schedule; seed = c.seed } };

    ghost invariant = { λ c. IsInRange (record { job = c.job; settings = c.settings; cap = c.cap; workers = c.workers; burst = c.burst; strands = c.strands; schedule = c.schedule; seed = c.seed }) };
}

impl Command {
    /// The job.
    pub fn job(&self) -> Job
        ensures { result ≡ self.now.job }
    {
        self.job
    }

    /// How many messages a ring holds.
    pub fn cap(&self) -> u32
        ensures value { result ≡ self.now.cap }
        ensures range { (1 ≤ result) × (result ≤ 64) }
    {
        self.cap
    }

    /// What plans are made by.
    pub fn settings(&self) -> Settings
        ensures value { result ≡ self.now.settings }
        ensures range { (2 ≤ result.k) × (result.k ≤ 64) }
    {
        self.settings
    }

    /// How many threads take turns.
    pub fn workers(&self) -> u32
        ensures value { result ≡ self.now.workers }
        ensures range { (1 ≤ result) × (result ≤ 16) }
    {
        self.workers
    }

    /// The most steps of a rank in one turn.
    pub fn burst(&self) -> u32
        ensures value { result ≡ self.now.burst }
        ensures range { (1 ≤ result) × (result ≤ 1024) }
    {
        self.burst
    }

    /// To how many strands the pixels of an image are dealt out.
    pub fn strands(&self) -> u32
        ensures value { result ≡ self.now.strands }
        ensures range { (1 ≤ result) × (result ≤ 64) }
    {
        self.strands
    }

    /// The seed of a scene that is made.
    pub fn seed(&self) -> u64
        ensures { result ≡ self.now.seed }
    {
        self.seed
    }

    /// The ranks that a replay tells to go on.
    pub fn schedule(&self) -> &[u32]
        ensures { result.now ≡ self.now.schedule }
    {
        self.schedule.as_slice()
    }
}

/// The command that the words are, which stand behind the program's name. None where they are none.
///
/// # Errors
///
/// `NoMemory`.
#[tactic(auto, using(crate::proofs::Readings::reading_none, crate::proofs::Readings::reading_some))]
pub fn read_words<'a>(alloc: Global, words: &'a [&'a str]) -> Result<Option<Command>, NoMemory>
    ensures { IfOk result (λ read. read ≡ reading (map (λ word. word.now) words.now)) }
{
    match parse(alloc, words)? {
        None => Ok(None),
        Some(matches) => command_from(alloc, &matches),
    }
}

fn command_from(alloc: Global, matches: &ArgMatches) -> Result<Option<Command>, NoMemory>
    requires { HasNumbers (rows_of (found_of matches.now)) }
    ensures { IfOk result (λ read. read ≡ command_from (rows_of (found_of matches.now))) }
{
    let Some(job) = job_at(matches) else {
        return Ok(None);
    };
    let Some(settings) = settings_at(matches) else {
        return Ok(None);
    };
    let Some(schedule) = schedule_at(alloc, matches)? else {
        return Ok(None);
    };
    Ok(Some(Command {
        job,
        settings,
        cap: number_at(matches, "cap") as u32,
        workers: number_at(matches, "workers") as u32,
        burst: number_at(matches, "burst") as u32,
        strands: number_at(matches, "strands") as u32,
        schedule,
        seed: number_at(matches, "seed"),
    }))
}

/// The text that was found under a name.
fn text_at<'a>(matches: &ArgMatches<'a>, name: &str) -> Option<&'a str>
    ensures { option_map (λ s. s.now) result ≡ first_of name.now (rows_of (found_of matches.now)) }
{
    matches.get_str(name)
}

fn number_at(matches: &ArgMatches, name: &str) -> u64
    requires { HasDigits name.now (rows_of (found_of matches.now)) }
    ensures { result ≡ number_at name.now (rows_of (found_of matches.now)) }
{
    match text_at(matches, name) {
        Some(text) => number_of(text),
        None => unreachable!(),
    }
}

fn number_of(text: &str) -> u64
    requires { IsNumeral 10 (without_leading_plus text.now) × (digits_value 10 (without_leading_plus text.now) < 2 ^ 64) }
    ensures { result ≡ digits_value 10 (without_leading_plus text.now) }
{
    match text.parse::<u64>() {
        Ok(number) => number,
        Err(_) => unreachable!(),
    }
}

fn job_at(matches: &ArgMatches) -> Option<Job>
    ensures { result ≡ option_and_then job_of (first_of (codes "job") (rows_of (found_of matches.now))) }
{
    job_of(text_at(matches, "job")?)
}

fn settings_at(matches: &ArgMatches) -> Option<Settings>
    requires { HasNumber (codes "k") 2 64 (rows_of (found_of matches.now)) }
    ensures value { result ≡ settings_at (rows_of (found_of matches.now)) }
    ensures range { IfSome result (λ s. (2 ≤ s.k) × (s.k ≤ 64)) }
{
    let strategy = strategy_of(text_at(matches, "strategy")?)?;
    let single = single_of(text_at(matches, "single")?)?;
    let k = number_at(matches, "k") as u32;
    Some(Settings {
        strategy,
        single,
        k,
    })
}

fn schedule_at(alloc: Global, matches: &ArgMatches) -> Result<Option<Schedule>, NoMemory>
    ensures { IfOk result (λ read. read ≡ schedule_at (first_of (codes "schedule") (rows_of (found_of matches.now)))) }
{
    match text_at(matches, "schedule") {
        None => Ok(Some(Schedule::empty(alloc))),
        Some(text) => schedule_of(alloc, text.as_bytes()),
    }
}

fn job_of(word: &str) -> Option<Job>
    ensures { result ≡ job_of word.now }
{
    if word == "composite" {
        Some(Job::Composite)
    } else if word == "traffic" {
        Some(Job::Traffic)
    } else if word == "plan" {
        Some(Job::Plan)
    } else if word == "replay" {
        Some(Job::Replay)
    } else if word == "summary" {
        Some(Job::Summary)
    } else if word == "demo" {
        Some(Job::Demo)
    } else if word == "upgrade" {
        Some(Job::Upgrade)
    } else {
        None
    }
}

fn strategy_of(word: &str) -> Option<Strategy>
    ensures { result ≡ strategy_of word.now }
{
    if word == "sequential" {
        Some(Strategy::Sequential)
    } else if word == "direct" {
        Some(Strategy::Direct)
    } else if word == "reduce" {
        Some(Strategy::Reduce)
    } else {
        None
    }
}

fn single_of(word: &str) -> Option<Single>
    ensures { result ≡ single_of word.now }
{
    if word == "tree" {
        Some(Single::Tree)
    } else if word == "bswap" {
        Some(Single::Bswap)
    } else if word == "radixk" {
        Some(Single::Radixk)
    } else {
        None
    }
}
