//! How entities stand under whole queries, and the first hits of a query.
ghost use Rattle.std.specs.Prelude.{◌≡◌, ◌<◌, IfOk, length, map};
ghost use Rattle.query_check.specs.Plan.{all_inner, inner_of, operands_seen, plans_of, seen_node, stated_of};
ghost use Rattle.query_check.specs.Plan.Plan.{list_plan};
ghost use Rattle.query_check.specs.Verticals.{AreOf, AreStated, IsOf};
ghost use Rattle.uni_meaning.specs.Hits.{cut, first_vertical, vertical_of};
ghost use Rattle.uni_meaning.specs.Viewed.{IsViewed};
ghost use Rattle.uni_meaning.specs.Standings.{columns_of, found_members, members_of, places_of, seen_column, standings_of, under_join};

use crate::column::{Column, is_set, under_set};
use crate::pace::under_walk;
use crate::place::Place;
use crate::standing::Standing;
use crate::view::View;
use query_check::{Checked, CheckedNode, CheckedOperand};
use query_tree::ListKind;
use std::alloc::AllocError;
use uni_base::{DocKey, EdgeList};

/// A hit of a query's cut, with the edges that the viewer is shown of it, if any.
#[derive(Drop)]
pub(crate) struct Member {
    pub key: DocKey,
    pub lineage: Option<EdgeList>,
}

impl<'t> View<'t> {
    /// The first hits of a query in rank order over all shards, as many as the limit says.
    #[cycle(under)]
    pub fn cut(&self, query: &Checked, limit: u32) -> Result<Vec<Member>, AllocError>
        requires view { IsViewed self.now }
        requires typed { IsOf self.now.schema (stated_of query.now).plan (stated_of query.now).vertical }
        requires inner { AreStated self.now.schema (inner_of query.now) }
        ensures { IfOk result (λ members. members.items ≡ members_of self.now (stated_of query.now).plan
            (cut self.now.schema self.now.contents (stated_of query.now).plan limit)) }
    {
        if let CheckedNode::Term { type_no, key } = &query.node {
            return self.term_cut(*type_no, key, limit);
        }
        let places = self.places(query.vertical)?;
        let standings = self.under(&query.node, places.as_slice())?;
        let mut members = self.members(places.as_slice(), standings.as_slice())?;
        members.sort_unstable_by_key(|member| member.key);
        members.truncate(limit as usize);
        Ok(members)
    }

    // The hits among entities.
    fn members(&self, places: &[Place], standings: &[Standing]) -> Result<Vec<Member>, AllocError>
        requires { length places.now ≡ length standings.now }
        ensures { IfOk result (λ members. members.items ≡ found_members places.now standings.now) }
    {
        let mut members = Vec::new(self.alloc);
        for (i, place) in places.iter().enumerate() {
            if standings[i].is_found() {
                members.push(Member {
                    key: place.doc,
                    lineage: standings[i].shown(self.alloc)?,
                })?;
            }
        }
        Ok(members)
    }

    // How the entities of a query's vertical stand under it.
    #[cycle(under)]
    fn under(&self, node: &CheckedNode, places: &[Place]) -> Result<Vec<Standing>, AllocError>
        requires view { IsViewed self.now }
        requires typed { IsOf self.now.schema (seen_node node.now).plan (vertical_of self.now.schema (seen_node node.now).plan) }
        requires inner { AreStated self.now.schema (seen_node node.now).inner }
        requires there { places.now ≡ places_of self.now.schema self.now.contents (vertical_of self.now.schema (seen_node node.now).plan) }
        ensures { IfOk result (λ standings. standings.items ≡ standings_of self.now (seen_node node.now).plan places.now) }
    {
        match node {
            CheckedNode::Term { type_no, key } => self.under_terms(*type_no, key, places),
            CheckedNode::Prefix { type_no, from } => self.under_prefixes(*type_no, from, places),
            CheckedNode::And(operands) => self.under_list(ListKind::And, operands, places),
            CheckedNode::Or(operands) => self.under_list(ListKind::Or, operands, places),
            CheckedNode::Difference(operands) => {
                self.under_list(ListKind::Difference, operands, places)
            }
            CheckedNode::WeakAnd(operands) => self.under_list(ListKind::WeakAnd, operands, places),
            CheckedNode::StrongOr(operands) => {
                self.under_list(ListKind::StrongOr, operands, places)
            }
            CheckedNode::Apply {
                type_no,
                limit,
                node,
            } => self.under_query(*type_no, node, *limit, places),
            CheckedNode::Extract {
                type_no,
                limit,
                node,
            } => self.under_query(*type_no, node, *limit, places),
        }
    }

    // How they stand under a join of a type, by the cut of a query.
    #[cycle(under)]
    fn under_query(
        &self,
        type_no: u16,
        query: &Checked,
        limit: u32,
        places: &[Place],
    ) -> Result<Vec<Standing>, AllocError>
        requires view { IsViewed self.now }
        requires declared { type_no < length self.now.schema.types }
        requires typed { IsOf self.now.schema (stated_of query.now).plan (stated_of query.now).vertical }
        requires inner { AreStated self.now.schema (inner_of query.now) }
        ensures { IfOk result (λ standings. standings.items ≡ map (λ p. under_join self.now type_no (members_of self.now (stated_of query.now).plan
            (cut self.now.schema self.now.contents (stated_of query.now).plan limit)) p.doc) places.now) }
    {
        let members = self.cut(query, limit)?;
        self.under_join(type_no, members.as_slice(), places)
    }

    // How they stand under an operator over operands.
    #[cycle(under)]
    fn under_list(
        &self,
        kind: ListKind,
        operands: &Vec<CheckedOperand>,
        places: &[Place],
    ) -> Result<Vec<Standing>, AllocError>
        requires view { IsViewed self.now }
        requires typed { IsOf self.now.schema (list_plan kind (plans_of (operands_seen operands.now.items))) (first_vertical self.now.schema (plans_of (operands_seen operands.now.items))) }
        requires inner { AreStated self.now.schema (all_inner (operands_seen operands.now.items)) }
        requires there { places.now ≡ places_of self.now.schema self.now.contents (first_vertical self.now.schema (plans_of (operands_seen operands.now.items))) }
        ensures { IfOk result (λ standings. standings.items ≡ standings_of self.now (list_plan kind (plans_of (operands_seen operands.now.items))) places.now) }
    {
        let columns = self.columns(operands, places)?;
        if is_set(kind) {
            under_set(self.alloc, kind, columns.as_slice(), places.len())
        } else {
            under_walk(self.alloc, kind, columns.as_slice(), places)
        }
    }

    // How they stand under each operand.
    #[cycle(under)]
    fn columns(
        &self,
        operands: &Vec<CheckedOperand>,
        places: &[Place],
    ) -> Result<Vec<Column>, AllocError>
        requires view { IsViewed self.now }
        requires typed { AreOf self.now.schema (plans_of (operands_seen operands.now.items)) (first_vertical self.now.schema (plans_of (operands_seen operands.now.items))) }
        requires inner { AreStated self.now.schema (all_inner (operands_seen operands.now.items)) }
        requires there { places.now ≡ places_of self.now.schema self.now.contents (first_vertical self.now.schema (plans_of (operands_seen operands.now.items))) }
        ensures { IfOk result (λ columns. map seen_column columns.items ≡ columns_of self.now (operands_seen operands.now.items) places.now) }
    {
        let mut columns = Vec::new(self.alloc);
        for operand in operands {
            let standings = self.under(&operand.node, places)?;
            columns.push(Column {
                mark: operand.mark,
                standings,
            })?;
        }
        Ok(columns)
    }
}
