//! Runs two ends and a net by a script from standard input, and prints what happens and what each user was given and told.
#![tactic(auto)]

mod report;
mod run;

fn main(rt: HostRuntime) -> anyhow::Result<()> {
    run::run(&rt)
}
