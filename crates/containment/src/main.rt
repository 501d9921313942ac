// Reads duty.chart and rule.chart from the folder that it is run in, and prints the verdict on them.
#![tactic(auto)]

use files::Texts;
use report::decide_texts;

fn main(rt: HostRuntime) -> anyhow::Result<()> {
    let texts = Texts::read(&rt, rt.alloc())?;
    rt.print(decide_texts(&texts.duty, &texts.rule))?;
    Ok(())
}
