// The laws of families, estates and shares. Each function has laws for its contract, and does nothing.
#![tactic(auto)]

ghost use Rattle.law.specs.Promise.{AddsUp, OnlyLiving, DeadLines, StandsFor, NearerFirst, JustOne};
ghost use Rattle.theory.specs.Families.{ReachedWellFormed};
ghost use Rattle.theory.specs.Living.{LivingLinesAreOneSet};
ghost use Rattle.theory.specs.Decedent.{DecedentMarkedDead};
ghost use Rattle.theory.specs.Multiples.{LeastMultiple};
ghost use Rattle.theory.specs.Shares.{SharesExist};
ghost use Rattle.theory.specs.Answers.{OneRightAnswer};
ghost use Rattle.theory.specs.Statements.{AddsUpByRank, HeirsAreThere, DeadChildChangesNothing, DeadPersonChangesNothing, NobodyElseHasLess, LineStandsFor, LineHasInstead, FirstOrderOnly};
ghost use Rattle.theory.specs.Examples.{FirstFamily, SecondFamily};

// Every family that calls lead to has a rank that grows from parent to child, and spouses who are each other's.
pub fn well_formed()
    ensures { ReachedWellFormed }
{}

// Who lives or has a child in the set is in it: just one set is so, that of the lines that live.
pub fn living_lines_are_one_set()
    ensures { LivingLinesAreOneSet }
{}

// The estate of somebody is the same where they are marked dead, and no line need leave them out then.
pub fn decedent_marked_dead()
    ensures { DecedentMarkedDead }
{}

// If anybody inherits, all parts together are the estate.
pub fn parts_add_up()
    ensures promised { AddsUp }
    ensures stronger { AddsUpByRank }
{}

// Only the living inherit, and not the decedent.
pub fn only_living()
    ensures promised { OnlyLiving }
    ensures stronger { HeirsAreThere }
{}

// A child that is born and dies without a child changes nobody's part.
pub fn dead_lines()
    ensures promised { DeadLines }
    ensures stronger { DeadChildChangesNothing }
    ensures persons { DeadPersonChangesNothing }
{}

// If somebody without a spouse dies whose line lives on, nobody else has less.
pub fn stands_for()
    ensures promised { StandsFor }
    ensures stronger { NobodyElseHasLess }
{}

// The line of somebody who dies has each of their parts instead, and together just what that was.
pub fn line_stands_for()
    ensures promised { LineStandsFor }
    ensures stronger { LineHasInstead }
{}

// Where a child's line lives, all heirs descend from the decedent, or are the spouse.
pub fn nearer_first()
    ensures promised { NearerFirst }
    ensures stronger { FirstOrderOnly }
{}

// The number that an estate is divided by is the least that all parts divide.
pub fn least_multiple()
    ensures { LeastMultiple }
{}

// There are shares as the parts are wherever that number is below 2 to the 32nd.
pub fn shares_exist()
    ensures { SharesExist }
{}

// There is just one row of shares that is as the parts are.
pub fn just_one()
    ensures { JustOne }
{}

// There is just one right answer to each call.
pub fn one_right_answer()
    ensures { OneRightAnswer }
{}

// The parents and the spouse of somebody without children.
pub fn first_family()
    ensures { FirstFamily }
{}

// The same where one parent is dead and has another child.
pub fn second_family()
    ensures { SecondFamily }
{}
