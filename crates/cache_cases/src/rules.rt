//! The rules, by the keywords of cases.

use crate::files::{read_cache, reading, told_bytes};
use cc_base::{NoMemory, put_number};
use invariant_codec::check_invariant;
use result_cache::Cache;
use rule_text::{Failure, Line, Rules, asked, check, check_yes, two_words};
use std::alloc::Global;

/// The cache of a case that is run.
#[derive(Drop)]
pub struct CacheRules {
    alloc: Global,
    cache: Cache,
}

/// The text that was found is the one that is told.
fn check_text(found: Vec<u8>, told: &str) -> Result<(), Failure> {
    match String::from_utf8(found) {
        Ok(text) => check(text, told),
        Err(_) => Err(Failure::Unread("a text")),
    }
}

/// `read HEX = ok`, or the fault, as `short 0000000c`: what reading this file gives.
fn test_reading(alloc: Global, argument: &str) -> Result<(), Failure> {
    let (hex, told) = asked(argument)?;
    let bytes = told_bytes(alloc, hex)?;
    check_text(reading(alloc, &bytes)?, told)
}

/// So many bytes.
fn zeros(alloc: Global, count: u32) -> Result<Vec<u8>, NoMemory> {
    let mut bytes = Vec::with_capacity(alloc, count as usize)?;
    for _ in 0..count {
        bytes.push(0)?;
    }
    Ok(bytes)
}

/// The number of a word.
fn read_number(word: &str) -> Result<u32, Failure> {
    word.parse::<u32>().ok().ok_or(Failure::Unread("a number"))
}

impl CacheRules {
    /// `none`: a cache without entries. `file HEX`: the cache of this file.
    fn begin(&mut self, cache: Cache) -> Result<Line, Failure> {
        self.cache = cache;
        Ok(Line::Begin)
    }

    /// Puts an invariant for a key.
    fn put_bytes(&mut self, key: Vec<u8>, invariant: Vec<u8>) -> Result<Line, Failure> {
        if invariant.len() > 65_536 || check_invariant(self.alloc, &invariant).is_err() {
            return Err(Failure::Unmet("the bytes are an invariant"));
        }
        self.cache.put(&key, &invariant)?;
        Ok(Line::Step)
    }

    /// `put KEY INVARIANT`: this invariant is put for the key.
    fn put(&mut self, argument: &str) -> Result<Line, Failure> {
        let (key, invariant) = two_words(argument)?;
        let key = told_bytes(self.alloc, key)?;
        let invariant = told_bytes(self.alloc, invariant)?;
        self.put_bytes(key, invariant)
    }

    /// `long COUNT`: an invariant without blocks is put for a key of so many bytes, which are 0.
    fn put_long(&mut self, argument: &str) -> Result<Line, Failure> {
        let key = zeros(self.alloc, read_number(argument)?)?;
        let invariant = zeros(self.alloc, 2)?;
        self.put_bytes(key, invariant)
    }

    /// `get KEY = INVARIANT`, or `none`: what is kept for the key.
    fn test_get(&self, argument: &str) -> Result<Line, Failure> {
        let (key, told) = asked(argument)?;
        let key = told_bytes(self.alloc, key)?;
        let found = self.cache.get(&key);
        if told == "none" {
            check_yes(self.alloc, found.is_none(), "yes")?;
            return Ok(Line::Answer);
        }
        let told = told_bytes(self.alloc, told)?;
        check_yes(self.alloc, found == Some(told.as_slice()), "yes")?;
        Ok(Line::Answer)
    }

    /// `bytes HEX`: the file that is written.
    fn test_bytes(&self, hex: &str) -> Result<Line, Failure> {
        let told = told_bytes(self.alloc, hex)?;
        let found = self.cache.bytes(self.alloc)?;
        check_yes(self.alloc, found.as_slice() == told.as_slice(), "yes")?;
        Ok(Line::Answer)
    }

    /// `length COUNT`: how many bytes the file has that is written.
    fn test_length(&self, told: &str) -> Result<Line, Failure> {
        let found = self.cache.bytes(self.alloc)?;
        let mut text = Vec::new(self.alloc);
        put_number(self.alloc, &mut text, found.len() as i64)?;
        check_text(text, told)?;
        Ok(Line::Answer)
    }
}

impl Rules for CacheRules {
    fn new(alloc: Global) -> CacheRules {
        CacheRules {
            alloc,
            cache: Cache::none(alloc),
        }
    }

    fn take(&mut self, keyword: &str, argument: &str) -> Result<Line, Failure> {
        match keyword {
            "none" => self.begin(Cache::none(self.alloc)),
            "file" => {
                let bytes = told_bytes(self.alloc, argument)?;
                self.begin(read_cache(self.alloc, &bytes)?)
            }
            "put" => self.put(argument),
            "long" => self.put_long(argument),
            "get" => self.test_get(argument),
            "bytes" => self.test_bytes(argument),
            "length" => self.test_length(argument),
            "read" => {
                test_reading(self.alloc, argument)?;
                Ok(Line::Answer)
            }
            _ => Err(Failure::Unread("a keyword")),
        }
    }
}
