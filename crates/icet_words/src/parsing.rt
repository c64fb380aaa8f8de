ghost use Rattle.std.specs.Prelude.{◌≡◌, IfOk, map, option_map};
ghost use Rattle.std.specs.Prelude.{false, IfSome};
ghost use Rattle.clap.specs.Words.{app_of, found_of, rows_of, rule_of};
ghost use Rattle.icet_words.specs.CommandLine.{HasNumbers, found_in, icet, number_or, option, option_or, required_word};

use clap::builder::ValueParser;
use clap::error::ErrorKind;
use clap::{Arg, ArgAction, ArgMatches, Command};
use icet_base::NoMemory;
use icet_base::limits::{MAX_BURST, MAX_CAPACITY, MAX_RADIX, MAX_STRANDS, MAX_WORKERS, MIN_RADIX};
use std::alloc::{AllocError, Global};

fn required_word<'a>(alloc: Global, name: &'a str) -> Arg<'a>
    ensures rule { rule_of result ≡ required_word name.entry.now }
    ensures local { result.global ≡ false }
{
    Arg::new(alloc, name).required(true).action(ArgAction::Set)
}

fn option<'a>(alloc: Global, name: &'a str) -> Arg<'a>
    ensures rule { rule_of result ≡ option name.entry.now }
    ensures local { result.global ≡ false }
{
    Arg::new(alloc, name).long(name).action(ArgAction::Set)
}

fn option_or<'a>(alloc: Global, name: &'a str, plain: &'a str) -> Arg<'a>
    ensures rule { rule_of result ≡ option_or name.entry.now plain.entry.now }
    ensures local { result.global ≡ false }
{
    option(alloc, name).default_value(plain)
}

fn number_or<'a>(alloc: Global, name: &'a str, plain: &'a str, least: u64, most: u64) -> Arg<'a>
    ensures rule { rule_of result ≡ number_or name.entry.now plain.entry.now least most }
    ensures local { result.global ≡ false }
{
    option_or(alloc, name, plain).value_parser(ValueParser::unsigned(least, most))
}

/// The command that `clap` is told of.
fn command_line<'a>(alloc: Global) -> Result<Command<'a>, AllocError>
    ensures { IfOk result (λ c. app_of c ≡ icet) }
{
    Command::new(alloc, "icet")
        .no_binary_name(true)
        .disable_help_flag(true)
        .arg(required_word(alloc, "job"))?
        .arg(option_or(alloc, "strategy", "reduce"))?
        .arg(option_or(alloc, "single", "radixk"))?
        .arg(number_or(alloc, "k", "8", MIN_RADIX as u64, MAX_RADIX as u64))?
        .arg(number_or(alloc, "cap", "4", 1, MAX_CAPACITY as u64))?
        .arg(number_or(alloc, "workers", "2", 1, MAX_WORKERS as u64))?
        .arg(number_or(alloc, "burst", "16", 1, MAX_BURST as u64))?
        .arg(number_or(alloc, "strands", "1", 1, MAX_STRANDS as u64))?
        .arg(option(alloc, "schedule"))?
        .arg(number_or(alloc, "seed", "1", 0, u64::MAX))
}

/// What `clap` finds in the words; None where it refuses them.
pub fn parse<'a>(alloc: Global, words: &'a [&'a str]) -> Result<Option<ArgMatches<'a>>, NoMemory>
    ensures found { IfOk result (λ found. option_map (λ m. rows_of (found_of m)) found ≡ found_in (map (λ word. word.now) words.now)) }
    ensures numbers { IfOk result (λ found. IfSome found (λ m. HasNumbers (rows_of (found_of m)))) }
{
    let command = command_line(alloc)?;
    match command.try_get_matches_from(words) {
        Ok(matches) => Ok(Some(matches)),
        Err(error) => {
            if error.kind() == ErrorKind::OutOfMemory {
                Err(NoMemory)
            } else {
                Ok(None)
            }
        }
    }
}
