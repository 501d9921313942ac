// Reads duty.chart and rule.chart from the folder that it is run in, and prints a word that the duty takes and the rule does
// not, if there is one.
#![tactic(auto)]

use files::Texts;
use report::counterexample_of_texts;

fn main(rt: HostRuntime) -> anyhow::Result<()> {
    let texts = Texts::read(&rt, rt.alloc())?;
    rt.print(counterexample_of_texts(&texts.duty, &texts.rule))?;
    Ok(())
}
