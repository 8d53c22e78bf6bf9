//! Calls on groups.
ghost use Rattle.std.specs.Prelude.{◌≡◌};
ghost use Rattle.mpi_group.specs.Algebra.{union_of, intersection_of, difference_of, included, excluded, range_included, range_excluded};
ghost use Rattle.mpi_law.specs.Local.Groups.{translated_all, call_combined, call_chosen, call_translate, call_compare, call_size, call_rank, call_gfree};

use crate::call::{Around, Call};
use mpi_base::{ErrClass, Ints, Name, RankArgs, RankOuts, Reply, Triplets};
use mpi_group::Group;
use mpi_law::Effect;

/// Ranks of one group as ranks of another, in order.
fn translate_all(from: &Group, ranks: &RankArgs, to: &Group) -> Result<RankOuts, ErrClass>
    ensures { result ≡ translated_all from.now ranks.now to.now }
{
    let mut outs = RankOuts::none();
    for rank in ranks.as_slice() {
        outs.push(from.translate_one(*rank, to)?);
    }
    Ok(outs)
}

impl<A: Around> Call<'_, A> {
    /// The union of two groups.
    pub(crate) fn union(
        &self,
        first: &Name,
        second: &Name,
        target: &Name,
    ) -> Result<Effect<u16>, ErrClass>
        ensures { result ≡ call_combined union_of self.now.objects.now.local first.now second.now target.now }
    {
        let ((first, session), (second, _)) = self.two_groups(first, second)?;
        self.binds_group(first.union(second).members().copy(), session, target)
    }

    /// The intersection of two groups.
    pub(crate) fn intersect(
        &self,
        first: &Name,
        second: &Name,
        target: &Name,
    ) -> Result<Effect<u16>, ErrClass>
        ensures { result ≡ call_combined intersection_of self.now.objects.now.local first.now second.now target.now }
    {
        let ((first, session), (second, _)) = self.two_groups(first, second)?;
        self.binds_group(first.intersection(second).members().copy(), session, target)
    }

    /// The difference of two groups.
    pub(crate) fn difference(
        &self,
        first: &Name,
        second: &Name,
        target: &Name,
    ) -> Result<Effect<u16>, ErrClass>
        ensures { result ≡ call_combined difference_of self.now.objects.now.local first.now second.now target.now }
    {
        let ((first, session), (second, _)) = self.two_groups(first, second)?;
        self.binds_group(first.difference(second).members().copy(), session, target)
    }

    /// The members with listed ranks.
    pub(crate) fn incl(
        &self,
        group: &Name,
        ranks: &Ints,
        target: &Name,
    ) -> Result<Effect<u16>, ErrClass>
        ensures { result ≡ call_chosen (λ members. included members ranks.now) self.now.objects.now.local group.now target.now }
    {
        let (group, session) = self.group_named(group)?;
        let chosen = group.incl(ranks.as_slice())?;
        self.binds_group(chosen.members().copy(), session, target)
    }

    /// The group without listed ranks.
    pub(crate) fn excl(
        &self,
        group: &Name,
        ranks: &Ints,
        target: &Name,
    ) -> Result<Effect<u16>, ErrClass>
        ensures { result ≡ call_chosen (λ members. excluded members ranks.now) self.now.objects.now.local group.now target.now }
    {
        let (group, session) = self.group_named(group)?;
        let chosen = group.excl(ranks.as_slice())?;
        self.binds_group(chosen.members().copy(), session, target)
    }

    /// The members with the ranks of ranges.
    pub(crate) fn range_incl(
        &self,
        group: &Name,
        ranges: &Triplets,
        target: &Name,
    ) -> Result<Effect<u16>, ErrClass>
        ensures { result ≡ call_chosen (λ members. range_included members ranges.now) self.now.objects.now.local group.now target.now }
    {
        let (group, session) = self.group_named(group)?;
        let chosen = group.range_incl(ranges.as_slice())?;
        self.binds_group(chosen.members().copy(), session, target)
    }

    /// The group without the ranks of ranges.
    pub(crate) fn range_excl(
        &self,
        group: &Name,
        ranges: &Triplets,
        target: &Name,
    ) -> Result<Effect<u16>, ErrClass>
        ensures { result ≡ call_chosen (λ members. range_excluded members ranges.now) self.now.objects.now.local group.now target.now }
    {
        let (group, session) = self.group_named(group)?;
        let chosen = group.range_excl(ranges.as_slice())?;
        self.binds_group(chosen.members().copy(), session, target)
    }

    /// Ranks of one group as ranks of another.
    pub(crate) fn translate(
        &self,
        from: &Name,
        ranks: &RankArgs,
        to: &Name,
    ) -> Result<Effect<u16>, ErrClass>
        ensures { result ≡ call_translate self.now.objects.now.local from.now ranks.now to.now }
    {
        let ((from, _), (to, _)) = self.two_groups(from, to)?;
        let outs = translate_all(from, ranks, to)?;
        Ok(Effect::Says(Reply::Ranks(outs)))
    }

    /// How alike two groups are.
    pub(crate) fn compare(&self, first: &Name, second: &Name) -> Result<Effect<u16>, ErrClass>
        ensures { result ≡ call_compare self.now.objects.now.local first.now second.now }
    {
        let ((first, _), (second, _)) = self.two_groups(first, second)?;
        Ok(Effect::Says(Reply::Like(first.compare(second))))
    }

    /// The size of a group.
    pub(crate) fn size(&self, group: &Name) -> Result<Effect<u16>, ErrClass>
        ensures { result ≡ call_size self.now.objects.now.local group.now }
    {
        let (group, _) = self.group_named(group)?;
        Ok(Effect::Says(Reply::Size(group.members().len())))
    }

    /// This rank's rank in a group.
    pub(crate) fn rank(&self, group: &Name) -> Result<Effect<u16>, ErrClass>
        ensures { result ≡ call_rank self.now.rank self.now.objects.now.local group.now }
    {
        let (group, _) = self.group_named(group)?;
        Ok(Effect::Says(Reply::Rank(group.rank_of(self.rank))))
    }

    /// Frees a group.
    pub(crate) fn gfree(&self, group: &Name) -> Result<Effect<u16>, ErrClass>
        ensures { result ≡ call_gfree self.now.objects.now.local group.now }
    {
        self.group_named(group)?;
        Ok(Effect::Ungroups(group.copy()))
    }
}
