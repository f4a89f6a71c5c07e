//! The operations on one word, each once.

ghost use Rattle.std.specs.Prelude.{◌≡◌, ◌≢◌, ℕ};
ghost use Rattle.pin_rule.specs.Ops.{word_of, IsIn, does, exchanged, one_more};
ghost use Rattle.pin_rule.specs.Steps.{after, after_split, split_off};
ghost use Rattle.pin_rule.specs.Keeps.{Keeps, KeepsSplit};
ghost use Rattle.pin_rule.specs.Told.{Tells, Meets};
ghost use Rattle.pin_rule.specs.Hands.{view_of, sizes_of, table_of};

use crate::content::Content;
use crate::hand::Hand;
use crate::ops::Op;
use crate::view_changes::{Doing, Halves, Portion, Reads, Stores};
use std::marker::Brand;

impl<C: Content> Hand<C> {
    fn load_as<G: Doing>(&mut self, op: Op, word: usize) -> u64
        requires op { G.op ≡ op }
        requires word { word ≡ word_of (sizes_of self.old) op }
        requires share { (view_of self.old).share ≢ 0 }
        requires inside { IsIn (sizes_of self.old) op }
        requires does { (n : ℕ) → does op n ≡ n }
        requires keeps { Keeps C.lawful C.fits (view_of self.old) op }
        ensures table { table_of self.new ≡ table_of self.old }
        ensures view { view_of self.new ≡ after (view_of self.old) op result }
        ensures told { Tells C.lawful C.fits (view_of self.new) }
        ensures meets { Meets (view_of self.old) op result }
    {
        let table = self.table.value();
        table.shared.load::<Reads<C, G>>(&mut self.seat, word)
    }

    /// Loads the word of the operation, which is this one.
    pub(crate) fn load_at(&mut self, op: Op, word: usize) -> u64
        requires word { word ≡ word_of (sizes_of self.old) op }
        requires share { (view_of self.old).share ≢ 0 }
        requires inside { IsIn (sizes_of self.old) op }
        requires does { (n : ℕ) → does op n ≡ n }
        requires keeps { Keeps C.lawful C.fits (view_of self.old) op }
        ensures table { table_of self.new ≡ table_of self.old }
        ensures view { view_of self.new ≡ after (view_of self.old) op result }
        ensures told { Tells C.lawful C.fits (view_of self.new) }
        ensures meets { Meets (view_of self.old) op result }
    {
        self.load_as::<Brand>(op, word)
    }

    pub(crate) fn load(&mut self, op: Op) -> u64
        requires share { (view_of self.old).share ≢ 0 }
        requires inside { IsIn (sizes_of self.old) op }
        requires does { (n : ℕ) → does op n ≡ n }
        requires keeps { Keeps C.lawful C.fits (view_of self.old) op }
        ensures table { table_of self.new ≡ table_of self.old }
        ensures view { view_of self.new ≡ after (view_of self.old) op result }
        ensures told { Tells C.lawful C.fits (view_of self.new) }
        ensures meets { Meets (view_of self.old) op result }
    {
        let word = self.starts.index_of(op);
        self.load_at(op, word)
    }

    fn store_as<G: Doing>(&mut self, op: Op, word: usize, new: u64)
        requires op { G.op ≡ op }
        requires word { word ≡ word_of (sizes_of self.old) op }
        requires share { (view_of self.old).share ≢ 0 }
        requires inside { IsIn (sizes_of self.old) op }
        requires does { (n : ℕ) → does op n ≡ new }
        requires after { (n m : ℕ) → after (view_of self.old) op n ≡ after (view_of self.old) op m }
        requires keeps { Keeps C.lawful C.fits (view_of self.old) op }
        ensures table { table_of self.new ≡ table_of self.old }
        ensures view { view_of self.new ≡ after (view_of self.old) op new }
    {
        let table = self.table.value();
        table.shared.store::<Stores<G>>(&mut self.seat, word, new)
    }

    /// Stores to the word of the operation, which is this one.
    pub(crate) fn store_at(&mut self, op: Op, word: usize, new: u64)
        requires word { word ≡ word_of (sizes_of self.old) op }
        requires share { (view_of self.old).share ≢ 0 }
        requires inside { IsIn (sizes_of self.old) op }
        requires does { (n : ℕ) → does op n ≡ new }
        requires after { (n m : ℕ) → after (view_of self.old) op n ≡ after (view_of self.old) op m }
        requires keeps { Keeps C.lawful C.fits (view_of self.old) op }
        ensures table { table_of self.new ≡ table_of self.old }
        ensures view { view_of self.new ≡ after (view_of self.old) op new }
    {
        self.store_as::<Brand>(op, word, new)
    }

    /// Stores the word that the operation leaves whatever it meets.
    pub(crate) fn store(&mut self, op: Op, new: u64)
        requires share { (view_of self.old).share ≢ 0 }
        requires inside { IsIn (sizes_of self.old) op }
        requires does { (n : ℕ) → does op n ≡ new }
        requires after { (n m : ℕ) → after (view_of self.old) op n ≡ after (view_of self.old) op m }
        requires keeps { Keeps C.lawful C.fits (view_of self.old) op }
        ensures table { table_of self.new ≡ table_of self.old }
        ensures view { view_of self.new ≡ after (view_of self.old) op new }
    {
        let word = self.starts.index_of(op);
        self.store_at(op, word, new)
    }

    fn exchange_as<G: Doing>(&mut self, op: Op, new: u64) -> u64
        requires op { G.op ≡ op }
        requires share { (view_of self.old).share ≢ 0 }
        requires inside { IsIn (sizes_of self.old) op }
        requires does { (n : ℕ) → does op n ≡ exchanged new n }
        requires keeps { Keeps C.lawful C.fits (view_of self.old) op }
        ensures table { table_of self.new ≡ table_of self.old }
        ensures view { view_of self.new ≡ after (view_of self.old) op result }
        ensures told { Tells C.lawful C.fits (view_of self.new) }
        ensures meets { Meets (view_of self.old) op result }
    {
        let word = self.starts.index_of(op);
        let table = self.table.value();
        table
            .shared
            .compare_exchange::<Reads<C, G>>(&mut self.seat, word, 0, new)
    }

    /// Exchanges 0 for the new word.
    pub(crate) fn exchange(&mut self, op: Op, new: u64) -> u64
        requires share { (view_of self.old).share ≢ 0 }
        requires inside { IsIn (sizes_of self.old) op }
        requires does { (n : ℕ) → does op n ≡ exchanged new n }
        requires keeps { Keeps C.lawful C.fits (view_of self.old) op }
        ensures table { table_of self.new ≡ table_of self.old }
        ensures view { view_of self.new ≡ after (view_of self.old) op result }
        ensures told { Tells C.lawful C.fits (view_of self.new) }
        ensures meets { Meets (view_of self.old) op result }
    {
        self.exchange_as::<Brand>(op, new)
    }

    fn add_as<G: Doing>(&mut self, op: Op) -> u64
        requires op { G.op ≡ op }
        requires share { (view_of self.old).share ≢ 0 }
        requires inside { IsIn (sizes_of self.old) op }
        requires does { (n : ℕ) → does op n ≡ one_more n }
        requires keeps { Keeps C.lawful C.fits (view_of self.old) op }
        ensures table { table_of self.new ≡ table_of self.old }
        ensures view { view_of self.new ≡ after (view_of self.old) op result }
        ensures told { Tells C.lawful C.fits (view_of self.new) }
        ensures meets { Meets (view_of self.old) op result }
    {
        let word = self.starts.index_of(op);
        let table = self.table.value();
        table
            .shared
            .fetch_add::<Reads<C, G>>(&mut self.seat, word, 1)
    }

    /// Adds 1.
    pub(crate) fn add(&mut self, op: Op) -> u64
        requires share { (view_of self.old).share ≢ 0 }
        requires inside { IsIn (sizes_of self.old) op }
        requires does { (n : ℕ) → does op n ≡ one_more n }
        requires keeps { Keeps C.lawful C.fits (view_of self.old) op }
        ensures table { table_of self.new ≡ table_of self.old }
        ensures view { view_of self.new ≡ after (view_of self.old) op result }
        ensures told { Tells C.lawful C.fits (view_of self.new) }
        ensures meets { Meets (view_of self.old) op result }
    {
        self.add_as::<Brand>(op)
    }

    fn swap_as<G: Doing>(&mut self, op: Op, new: u64) -> u64
        requires op { G.op ≡ op }
        requires share { (view_of self.old).share ≢ 0 }
        requires inside { IsIn (sizes_of self.old) op }
        requires does { (n : ℕ) → does op n ≡ new }
        requires keeps { Keeps C.lawful C.fits (view_of self.old) op }
        ensures table { table_of self.new ≡ table_of self.old }
        ensures view { view_of self.new ≡ after (view_of self.old) op result }
        ensures told { Tells C.lawful C.fits (view_of self.new) }
        ensures meets { Meets (view_of self.old) op result }
    {
        let word = self.starts.index_of(op);
        let table = self.table.value();
        table.shared.swap::<Reads<C, G>>(&mut self.seat, word, new)
    }

    /// Leaves a new word in place of the word met.
    pub(crate) fn swap(&mut self, op: Op, new: u64) -> u64
        requires share { (view_of self.old).share ≢ 0 }
        requires inside { IsIn (sizes_of self.old) op }
        requires does { (n : ℕ) → does op n ≡ new }
        requires keeps { Keeps C.lawful C.fits (view_of self.old) op }
        ensures table { table_of self.new ≡ table_of self.old }
        ensures view { view_of self.new ≡ after (view_of self.old) op result }
        ensures told { Tells C.lawful C.fits (view_of self.new) }
        ensures meets { Meets (view_of self.old) op result }
    {
        self.swap_as::<Brand>(op, new)
    }

    pub(crate) fn split_as<P: Portion>(&mut self, pins: u32) -> Hand<C>
        requires pins { P.pins ≡ pins }
        requires share { (view_of self.old).share ≢ 0 }
        requires keeps { KeepsSplit C.lawful C.fits (view_of self.old) pins }
        ensures tables { (table_of self.new ≡ table_of self.old) × (table_of result ≡ table_of self.old) }
        ensures left { view_of self.new ≡ after_split (view_of self.old) pins }
        ensures new { view_of result ≡ split_off (view_of self.old) pins }
    {
        let table = self.table.value();
        let seat = table.shared.split_seat::<Halves<P>>(&mut self.seat);
        let table = self.table.cut();
        Hand {
            table,
            seat,
            starts: self.starts,
        }
    }
}
