// Somebody's children, one after the other along their links.
#![tactic(auto)]

ghost use Rattle.std.specs.Prelude.{◌<◌};
ghost use Rattle.people.specs.Layout.{limit_in, Roomy};

// What is left of a walk along the links of somebody's children: the link to the next of them, and how many steps may still be taken. It takes no more steps
// than there are persons, so that it ends on any words.
#[derive(Clone, Copy, Drop)]
pub struct Children<'m> {
    memory: &'m [u32],
    parent: u32,
    link: u32,
    steps: u32,
    ghost room: { Roomy memory.now },
    ghost there: { parent < limit_in memory.now },
}

impl<'m> Children<'m> {
    ghost use Rattle.std.specs.Prelude.{◌≡◌, ℕ, ◌≤◌, Bool, List, length, drop};
    ghost use Rattle.std.specs.List.{All};
    ghost use Rattle.law.specs.Family.{Family, children};
    ghost use Rattle.children.specs.Links.{first_of, link_row};
    ghost use Rattle.people.specs.Layout.{count_in, person_row, laid};
    ghost use Rattle.people.specs.Walks.{met_from};
    ghost use Rattle.people.specs.Walking.{children_left};

    // Somebody's children from a link on.
    pub fn from_link(memory: &'m [u32], parent: u32, link: u32) -> Children<'m>
        requires room { Roomy memory.now }
        requires there { parent < limit_in memory.now }
        ensures words { children_left result ≡ met_from memory.now parent link (count_in memory.now) }
        ensures value { (n : ℕ) (f : Family) (s : ℕ → Bool) (work rest : List ℕ) (i : ℕ) → memory.now ≡ laid n (length f) (person_row f) (link_row f) s work rest → length f ≤ n
            → link ≡ first_of (drop i (children f parent)) → children_left result ≡ drop i (children f parent) }
        ensures within { All (λ child. child < limit_in memory.now) (children_left result) }
        ensures few { length (children_left result) ≤ count_in memory.now }
    {
        Children {
            memory,
            parent,
            link,
            steps: memory[1],
        }
    }

    // Somebody's children.
    pub fn of(memory: &'m [u32], parent: u32) -> Children<'m>
        requires room { Roomy memory.now }
        requires there { parent < limit_in memory.now }
        ensures value { (n : ℕ) (f : Family) (s : ℕ → Bool) (work rest : List ℕ) → memory.now ≡ laid n (length f) (person_row f) (link_row f) s work rest → length f ≤ n
            → children_left result ≡ children f parent }
        ensures within { All (λ child. child < limit_in memory.now) (children_left result) }
        ensures few { length (children_left result) ≤ count_in memory.now }
    {
        Children::from_link(memory, parent, crate::first_child(memory, parent))
    }
}

impl Iterator for Children<'_> {
    ghost use Rattle.std.specs.Iterator.{YieldsFirst, item_count};
    ghost use Rattle.people.specs.Walking.{children_left};

    type Item = u32;

    ghost next_gives = { YieldsFirst children_left };

    ghost remaining = { item_count children_left };

    fn next(&mut self) -> Option<u32> {
        if self.steps == 0 {
            return None;
        }
        let child = crate::somebody(self.memory[0], self.link)?;
        self.link = crate::next_child(self.memory, self.parent, child);
        self.steps -= 1;
        Some(child)
    }
}
