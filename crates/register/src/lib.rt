// A register of families in lent memory, at a stage: each call is taken by the rules, or turned away with nothing changed.
#![tactic(auto)]

ghost use Rattle.std.specs.Prelude.{◌≡◌, ℕ, ◌≤◌, Bool, List, length, Ok, Err};
ghost use Rattle.law.specs.Promise.{Right, RefusalKeeps, births_and_deaths, without_marriages, all_calls};
ghost use Rattle.rows.specs.Written.{written};
ghost use Rattle.wire.specs.Bytes.{read, answer_bytes};
ghost use Rattle.people.specs.Layout.{Sound, limit_in};
ghost use Rattle.service.specs.Desks.{desk, state, next, says, bytes_asked};
ghost use Rattle.service.specs.Service.{Opened, opens, left_by};
ghost use Rattle.register.specs.Stages.{RightWithin, RefusalKeepsWithin, AnswersKept, RelativesAlone};
ghost use Rattle.register.specs.Stores.{words_in, bytes_in};

pub mod session;
pub mod store;

use service::method::Passes;
use service::refusal::Refusal;
use service::stage::Stage;
use session::Register;
use std::marker::PhantomData;
use std::mem;
use store::Store;

impl<'a> Store<'a> {
    // What is lent to a register.
    pub fn new(memory: &'a mut [u32], answer: &'a mut [u8]) -> Store<'a>
        ensures words { result.memory ≡ memory.entry }
        ensures bytes { result.answer ≡ answer.entry }
    {
        Store { memory, answer }
    }
}

// The lent bytes, of which an answer is the first so many.
fn lent_bytes<'s>(store: &'s Store) -> &'s [u8]
    ensures value { result.now ≡ bytes_in store.now }
{
    store.answer
}

fn prepare_store(store: &mut Store, limit: u32) -> Result<(), Refusal>
    ensures opened { Opened (words_in store.old) (words_in store.new) (length (bytes_in store.old)) limit result }
    ensures words { store.new.memory.ghost_name ≡ store.old.memory.ghost_name }
    ensures bytes { store.new.answer ≡ store.old.answer }
{
    let bytes = store.answer.len();
    service::prepare(store.memory, bytes, limit)
}

// Answers any row of bytes at a stage, and says how many bytes the answer has.
fn answer_row<S: Stage>(memory: &mut [u32], answer: &mut [u8], row: &[u8]) -> usize
    requires sound { Sound memory.old }
    requires room { bytes_asked (limit_in memory.old) ≤ length answer.old }
    ensures left { state memory.new ≡ next S.can (state memory.old) (read row.now) }
    ensures said { answer.new ≡ written 0 (answer_bytes (says S.can (state memory.old) (read row.now))) answer.old }
    ensures long { result ≡ length (answer_bytes (says S.can (state memory.old) (read row.now))) }
    ensures sound { Sound memory.new }
    ensures limit { limit_in memory.new ≡ limit_in memory.old }
{
    match service::respond::<S, Passes>(memory, answer, row) {
        Ok(long) => long,
        Err(refusal) => {
            wire::put_refusal(answer, refusal.number(), refusal.place());
            9
        }
    }
}

fn respond_store<S: Stage>(store: &mut Store, row: &[u8]) -> usize
    requires sound { Sound (words_in store.old) }
    requires room { bytes_asked (limit_in (words_in store.old)) ≤ length (bytes_in store.old) }
    ensures left { state (words_in store.new) ≡ next S.can (state (words_in store.old)) (read row.now) }
    ensures said { bytes_in store.new ≡ written 0 (answer_bytes (says S.can (state (words_in store.old)) (read row.now))) (bytes_in store.old) }
    ensures long { result ≡ length (answer_bytes (says S.can (state (words_in store.old)) (read row.now))) }
    ensures sound { Sound (words_in store.new) }
    ensures room { bytes_asked (limit_in (words_in store.new)) ≤ length (bytes_in store.new) }
    ensures words { store.new.memory.ghost_name ≡ store.old.memory.ghost_name }
    ensures bytes { store.new.answer.ghost_name ≡ store.old.answer.ghost_name }
{
    let Store { memory, answer } = mem::replace(
        store,
        Store {
            memory: &mut [],
            answer: &mut [],
        },
    );
    let long = answer_row::<S>(memory, answer, row);
    *store = Store { memory, answer };
    long
}

impl<'b, 'a, S: Stage> Register<'b, 'a, S> {
    // Opens a register for so many persons in what is lent, or refuses and hands it back as it was.
    pub fn open(
        store: &'b mut Store<'a>,
        limit: u32,
    ) -> Result<Register<'b, 'a, S>, (Refusal, &'b mut Store<'a>)>
        ensures cases { elim result [
          | Ok g ↦ (Ok tt ≡ opens limit (length (words_in store.old)) (length (bytes_in store.old)))
              × (state (words_in g.store.now) ≡ left_by (Ok tt) (words_in store.old) limit)
              × (bytes_in g.store.now ≡ bytes_in store.old)
          | Err e ↦ (Err e.0 ≡ opens limit (length (words_in store.old)) (length (bytes_in store.old)))
              × (words_in e.1.now ≡ words_in store.old)
              × (bytes_in e.1.now ≡ bytes_in store.old)
        ] }
    {
        match prepare_store(store, limit) {
            Ok(()) => Ok(Register {
                store,
                stage: PhantomData,
            }),
            Err(refusal) => Err((refusal, store)),
        }
    }

    // Answers a call, given as its bytes, and says how many bytes the answer has.
    pub fn call(&mut self, row: &[u8]) -> usize
        ensures left { state (words_in self.new.store.now) ≡ next S.can (state (words_in self.old.store.now)) (read row.now) }
        ensures said { bytes_in self.new.store.now ≡ written 0 (answer_bytes (says S.can (state (words_in self.old.store.now)) (read row.now))) (bytes_in self.old.store.now) }
        ensures long { result ≡ length (answer_bytes (says S.can (state (words_in self.old.store.now)) (read row.now))) }
        ensures words { self.new.store.now.memory.ghost_name ≡ self.old.store.now.memory.ghost_name }
        ensures bytes { self.new.store.now.answer.ghost_name ≡ self.old.store.now.answer.ghost_name }
    {
        respond_store::<S>(self.store, row)
    }

    // The bytes that answers are written into.
    pub fn bytes<'s>(&'s self) -> &'s [u8]
        ensures value { result.now ≡ bytes_in self.now.store.now }
    {
        lent_bytes(self.store)
    }

    // Puts the register down: what was lent, which holds it.
    pub fn close(self) -> &'b mut Store<'a>
        ensures value { result ≡ self.entry.store }
        ensures sound { Sound (words_in result.now) }
        ensures room { bytes_asked (limit_in (words_in result.now)) ≤ length (bytes_in result.now) }
    {
        let Register { store, .. } = self;
        store
    }
}

// For every list of calls each answer is right, whatever lies behind the register's words: at every stage, and so where births and deaths are taken and where all calls are.
pub fn answers_are_right()
    ensures every { (can : ℕ → Bool) (rest : List ℕ) → Right can (desk can rest) }
    ensures births { (rest : List ℕ) → Right births_and_deaths (desk births_and_deaths rest) }
    ensures all { (rest : List ℕ) → Right all_calls (desk all_calls rest) }
{}

// A call that is turned away leaves the memory as it was.
pub fn refusals_keep()
    ensures every { (can : ℕ → Bool) (rest : List ℕ) → RefusalKeeps can (desk can rest) }
    ensures births { (rest : List ℕ) → RefusalKeeps births_and_deaths (desk births_and_deaths rest) }
    ensures all { (rest : List ℕ) → RefusalKeeps all_calls (desk all_calls rest) }
{}

// The same where all calls are taken, for every list of calls without weddings and partings by the rules for families without marriages; these families keep their answers, and
// relatives have the whole estate.
pub fn without_marriages()
    ensures right { (rest : List ℕ) → RightWithin without_marriages (desk all_calls rest) }
    ensures keeps { (rest : List ℕ) → RefusalKeepsWithin without_marriages (desk all_calls rest) }
    ensures same { AnswersKept without_marriages }
    ensures relatives { RelativesAlone }
{}
