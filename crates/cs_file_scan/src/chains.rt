//! Numbers that are found by chains of their indices.
ghost use Rattle.std.specs.Prelude.{◌≡◌, ◌<◌, ◌%◌, ◌++◌, ◌∷◌, [], IfOk, OnErr, OnOk, get_or, length};
ghost use Rattle.cs_file_scan.specs.Chains.{IsEnd, bucket_at, bucket_of};

use cs_value::NoMemory;
use std::alloc::Global;
use std::marker::Model;

/// A number, and one more than the previous index of its bucket, or 0 if it is the first.
#[derive(Debug, Drop)]
struct Link {
    number: u64,
    before: usize,
}

/// A list of numbers, in which the indices of a number are found. Each number is in a bucket, and the indices of a bucket
/// are a chain, from the last to the first. Contracts see the count of buckets and the numbers.
#[derive(Debug, Drop)]
pub struct NumberChains {
    // For each bucket, one more than its last index, or 0 if it has none.
    ends: Vec<usize>,
    links: Vec<Link>,
}

impl Model for NumberChains {
    ghost use Rattle.std.specs.Prelude.{length, map};
    ghost use Rattle.cs_file_scan.specs.Chains.{AreChained, ChainsData};

    ghost Value = { ChainsData };

    ghost view = { λ c. record { buckets = length c.ends.items; numbers = map (λ l. l.number) c.links.items } };

    ghost invariant = { λ c. AreChained c.ends.items (map (λ l. l.number) c.links.items) (map (λ l. l.before)
        c.links.items) };
}

impl NumberChains {
    /// Returns an empty list, with room for some numbers.
    pub fn with_capacity(alloc: Global, capacity: usize) -> Result<NumberChains, NoMemory>
        ensures { IfOk result (λ chains. chains.numbers ≡ []) }
    {
        Ok(NumberChains {
            ends: Vec::from_elem(alloc, 0, bucket_count(capacity))?,
            links: Vec::with_capacity(alloc, capacity)?,
        })
    }

    /// Returns the count of numbers.
    pub fn len(&self) -> usize
        ensures { result ≡ length self.now.numbers }
    {
        self.links.len()
    }

    /// Returns the number at a zero-based index, which is below [`NumberChains::len`].
    pub fn number(&self, index: usize) -> u64
        requires { index < length self.now.numbers }
        ensures { result ≡ get_or self.now.numbers index 0 }
    {
        self.links[index].number
    }

    /// Returns one more than the last index of the bucket of a number, or 0 if it has none.
    pub fn end(&self, number: u64) -> usize
        ensures { IsEnd self.now (bucket_of self.now number) (length self.now.numbers) result }
    {
        self.ends[bucket(number, self.ends.len())]
    }

    /// Returns one more than the previous index of the bucket of an index, or 0 if it has none.
    pub fn before(&self, index: usize) -> usize
        requires { index < length self.now.numbers }
        ensures { IsEnd self.now (bucket_at self.now index) index result }
    {
        self.links[index].before
    }

    /// Appends a number. [`NoMemory`] leaves the list unchanged.
    pub fn push(&mut self, number: u64) -> Result<(), NoMemory>
        ensures ok { OnOk result (self.new ≡ record {
          buckets = self.old.buckets;
          numbers = self.old.numbers
              ++ number ∷ [];
        }) }
        ensures err { OnErr result (self.new ≡ self.old) }
    {
        let at = bucket(number, self.ends.len());
        let before = self.ends[at];
        self.links.push(Link { number, before })?;
        self.ends[at] = self.links.len();
        Ok(())
    }
}

/// Returns the bucket of a number.
fn bucket(number: u64, buckets: usize) -> usize
    requires { 0 < buckets }
    ensures value { result ≡ number % buckets }
    ensures within { result < buckets }
{
    (number % (buckets as u64)) as usize
}

/// Returns the number of buckets for some numbers: as many, or some more. It is no multiple of 2, 3 or 5, so that keys
/// in steps of ten do not share their buckets.
fn bucket_count(capacity: usize) -> usize
    ensures { 0 < result }
{
    (capacity / 30).saturating_mul(30).saturating_add(31)
}
