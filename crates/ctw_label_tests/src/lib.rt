//! Tests of the crates that label modules: sites, links, flows and placed modules, with values worked by hand.
#![tactic(auto)]

#[cfg(test)]
mod cases;
#[cfg(test)]
mod flows;
#[cfg(test)]
mod link_table;
#[cfg(test)]
mod placement;
#[cfg(test)]
mod site_lists;
