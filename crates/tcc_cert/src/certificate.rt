//! What an answer claims.
use crate::{Links, Numbers, Table, Version};
use tcc_graph::Level;

/// A claim that a list is a commit order of a history at a level, with the clocks by which it can be checked.
#[derive(Drop)]
pub struct OrderClaim {
    pub version: Version,
    pub level: Level,
    /// The numbers of all transactions in the order.
    pub order: Numbers,
    /// How many sessions there are.
    pub sessions: u32,
    /// At `Causal` a row for each transaction. For each session it has the greatest place from which the transaction is
    /// reached, 0 for none. At `Atomic` there are no clocks.
    pub clocks: Table,
}

/// A claim that a cycle of a history at a level is a least one, with the tables by which it can be checked.
#[derive(Drop)]
pub struct CycleClaim {
    pub version: Version,
    pub level: Level,
    /// The links of the cycle.
    pub links: Links,
    /// What they cost: no cycle costs less.
    pub least: u32,
    /// Row a has for each c the least length of a walk from a to c that the level allows. It has `least` where there is
    /// none or it is greater.
    pub near: Table,
    /// Row s has for each v the least cost of a route from s to v, `least` where there is none or it is greater. In version
    /// 2 it has only the v from s upward, and only routes that meet no number below s count.
    pub far: Table,
}

/// A claim about a history at a level, with the tables by which it can be checked.
#[derive(Drop)]
pub enum Certificate {
    /// A list is a commit order.
    Order(OrderClaim),
    /// A cycle is least.
    Cycle(CycleClaim),
}
