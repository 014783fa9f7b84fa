// What a line asks for by its words: every line but those of hexadecimal digits.
ghost use Rattle.std.specs.Prelude.{◌≡◌, codes};
ghost use Rattle.lines.specs.Keys.{after as reading};
ghost use Rattle.script.specs.Services.{service_of};
ghost use Rattle.script.specs.Words.{number_after, word_of, set_of, path_of, spot_of, setting_of, words_ask};

use crate::asked::{Asked, SetKind, Setting};
use crate::parts::split_once;
use crate::service::read_service;
use crate::spot::Spot;
use lines::{is_word, parse_number, value_after};
use station::{Path, Service};

fn read_number(text: &[u8], key: &[u8]) -> Option<u32>
    ensures value { result ≡ number_after key.now text.now }
{
    parse_number(value_after(text, key)?)
}

// What the text means if it is the word.
fn read_word<T: Copy + Drop>(text: &[u8], word: &[u8], meaning: T) -> Option<T>
    ensures value { result ≡ word_of word.now meaning text.now }
{
    is_word(text, word).then_some(meaning)
}

fn read_set(text: &[u8]) -> Option<SetKind>
    ensures value { result ≡ set_of text.now }
{
    read_word(text, b"set=bus", SetKind::Bus).or_else(|| read_word(text, b"set=map", SetKind::Map))
}

fn read_path(text: &[u8]) -> Option<Path>
    ensures value { result ≡ path_of text.now }
{
    read_word(text, b"path=in-band", Path::InBand).or_else(|| read_word(
        text,
        b"path=out-of-band",
        Path::OutOfBand,
    ))
}

fn read_place(text: &[u8]) -> Option<Spot>
    ensures value { result ≡ reading (codes "place=") spot_of text.now }
{
    let value = value_after(text, b"place=")?;
    let (state, rest) = split_once(value, b',')?;
    let (county, part) = split_once(rest, b',')?;
    Some(Spot {
        state: parse_number(state)?,
        county: parse_number(county)?,
        part: parse_number(part)?,
    })
}

fn read_map_service(text: &[u8]) -> Option<Service>
    ensures value { result ≡ reading (codes "service=") service_of text.now }
{
    read_service(value_after(text, b"service=")?)
}

// What the text settles. Each kind is read only where those before it are not there.
fn read_setting(text: &[u8]) -> Option<Setting>
    ensures value { result ≡ setting_of text.now }
{
    read_map_service(text)
        .map(Setting::Service)
        .or_else(|| read_set(text).map(Setting::Set))
        .or_else(|| read_number(text, b"start=").map(Setting::Start))
        .or_else(|| read_place(text).map(Setting::Place))
        .or_else(|| read_path(text).map(Setting::Path))
        .or_else(|| read_number(text, b"clock=").map(Setting::Clock))
}

// What the words of a line ask for. Each kind is read only where those before it are not there.
pub(crate) fn read_words(text: &[u8]) -> Asked
    ensures value { result ≡ words_ask text.now }
{
    read_number(text, b"tick=")
        .map(Asked::Tick)
        .or_else(|| read_number(text, b"choose=").map(Asked::Choose))
        .or_else(|| read_setting(text).map(Asked::Setting))
        .or_else(|| read_word(text, b"begin", Asked::Begin))
        .unwrap_or(Asked::Unknown)
}
