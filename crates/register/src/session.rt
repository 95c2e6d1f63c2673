// A register of a stage: a store whose words are the memory of a valid family, and whose bytes suffice for every answer.
// The words are the same at every stage, so the stage is a mark for calls alone.
ghost use Rattle.std.specs.Prelude.{◌≤◌, length};
ghost use Rattle.people.specs.Layout.{Sound, limit_in};
ghost use Rattle.service.specs.Desks.{bytes_asked};
ghost use Rattle.register.specs.Stores.{words_in, bytes_in};

use crate::store::Store;
use std::marker::PhantomData;

#[derive(Drop)]
pub struct Register<'b, 'a, S> {
    pub(crate) store: &'b mut Store<'a>,
    pub(crate) stage: PhantomData<S>,
    ghost sound: { Sound (words_in store.now) },
    ghost room: { bytes_asked (limit_in (words_in store.now)) ≤ length (bytes_in store.now) },
}
