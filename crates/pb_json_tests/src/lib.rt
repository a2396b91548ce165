//! Tests of JSON lines, by public calls. The texts are those that commands write, and the lines are written by hand; or
//! they are told as objects.
#![tactic(auto)]

#[cfg(test)]
mod dialects;
#[cfg(test)]
mod lines;
#[cfg(test)]
mod live;
#[cfg(test)]
mod replies;
#[cfg(test)]
mod told;
#[cfg(test)]
mod told_engines;
#[cfg(test)]
mod told_expected;
#[cfg(test)]
mod told_outcomes;
#[cfg(test)]
mod told_pages;
#[cfg(test)]
mod told_plans;
#[cfg(test)]
mod told_records;
#[cfg(test)]
mod told_runs;
