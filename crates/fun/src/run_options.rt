//! What the words behind `run` and `trial` ask for.
use crate::failure::Failure;
use clap::ArgMatches;
use messages::near::nearest;
use std::alloc::Global;

/// The steps that are granted where a call says nothing of them.
const STEPS: u32 = 1_000_000;

/// The cells or slots that are lent where a call says nothing of them.
const ROOM: usize = 256;

/// No store counts more cells or slots than this.
const MOST_ROOM: usize = 65_535;

/// How a rule is run.
#[derive(Drop)]
pub(crate) struct Attempt<'a> {
    pub(crate) file: &'a str,
    /// The names of the readings as the call has them.
    pub(crate) names: Vec<&'a str>,
    /// Their values, in the same order.
    pub(crate) values: Vec<i32>,
    pub(crate) grants: Grants,
    pub(crate) stores: Stores,
    /// How many cells or slots a store has.
    pub(crate) room: usize,
    /// Whether each slot is shown.
    pub(crate) trace: bool,
}

/// The steps that a run is granted.
#[derive(Drop)]
pub(crate) enum Grants {
    /// All at once.
    Once(u32),
    /// One slot after another.
    Slots(Vec<u32>),
}

/// The stores that a rule is run over.
#[derive(Clone, Copy)]
pub(crate) enum Stores {
    Linked,
    Flat,
    Both,
}

impl<'a> Attempt<'a> {
    /// Reads what the options say.
    pub(crate) fn read(heap: Global, matches: &ArgMatches<'a>) -> Result<Attempt<'a>, Failure> {
        let mut names = Vec::new(heap);
        let mut values = Vec::new(heap);
        for word in matches.get_strs("values").unwrap_or(&[]) {
            let (name, value) = word.split_once('=').unwrap_or((word, ""));
            values.push(value_of(heap, name, value)?)?;
            names.push(name)?;
        }
        let stores = match matches.get_str("store") {
            Some("flat") => Stores::Flat,
            Some("both") => Stores::Both,
            _ => Stores::Linked,
        };
        Ok(Attempt {
            file: matches.get_str("file").unwrap_or("-"),
            names,
            values,
            grants: grants_of(heap, matches)?,
            stores,
            room: matches
                .get_one::<usize>("room")
                .unwrap_or(ROOM)
                .min(MOST_ROOM),
            trace: matches.get_flag("trace"),
        })
    }

    /// The values in the order in which a file names its readings.
    pub(crate) fn readings(&self, heap: Global, told: &[&str]) -> Result<Vec<i32>, Failure> {
        for name in &self.names {
            if !told.contains(name) {
                return Err(unknown(heap, name, told)?);
            }
        }
        let mut readings = Vec::new(heap);
        for name in told {
            let mut given = self
                .names
                .iter()
                .zip(self.values.iter())
                .filter(|(given, _)| **given == *name);
            match (given.next(), given.next()) {
                (Some((_, value)), None) => readings.push(*value)?,
                (None, _) => return Err(missing(heap, name)),
                (Some(_), Some(_)) => {
                    return Err(Failure::wrong_call(
                        heap,
                        &format_args!("the reading `{name}` has two values"),
                    ));
                }
            }
        }
        Ok(readings)
    }
}

/// The steps, at once or in slots.
fn grants_of(heap: Global, matches: &ArgMatches) -> Result<Grants, Failure> {
    match matches.get_many::<u32>("slots") {
        Some(slots) => {
            let mut grants = Vec::new(heap);
            for steps in slots {
                // What is no number was refused with the words.
                grants.push(steps.unwrap_or(STEPS))?;
            }
            Ok(Grants::Slots(grants))
        }
        None => Ok(Grants::Once(matches.get_one::<u32>("steps").unwrap_or(STEPS))),
    }
}

fn unknown(heap: Global, name: &str, told: &[&str]) -> Result<Failure, Failure> {
    let all = told.join(heap, " ")?;
    Ok(match nearest(heap, name.as_bytes(), told)? {
        Some(near) => Failure::wrong_call(
            heap,
            &format_args!("the rule has no reading `{name}`; did you mean `{near}`?"),
        ),
        None => Failure::wrong_call(
            heap,
            &format_args!("the rule has no reading `{name}`: its readings are {all}"),
        ),
    })
}

fn missing(heap: Global, name: &str) -> Failure {
    Failure::wrong_call(
        heap,
        &format_args!("the reading `{name}` has no value: write `{name}=0` for the value 0"),
    )
}

/// The value of a reading. Numbers are written as in the text of a rule.
fn value_of(heap: Global, name: &str, value: &str) -> Result<i32, Failure> {
    if value.is_empty() {
        return Err(missing(heap, name));
    }
    let digits = value.strip_prefix('-').unwrap_or(value);
    if digits.is_empty() || !digits.bytes().all(|byte| byte.is_ascii_digit()) {
        return Err(Failure::wrong_call(
            heap,
            &format_args!("the value of `{name}` has to be a whole number, and `{value}` is none"),
        ));
    }
    match value.parse::<i32>() {
        Ok(value) => Ok(value),
        Err(_) => Err(Failure::wrong_call(
            heap,
            &format_args!(
                "the value of `{name}` is out of range: {value} is not from -2147483648 to 2147483647"
            ),
        )),
    }
}
