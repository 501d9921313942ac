// Reads duty.chart and rule.chart from the folder that it is run in, and prints what each of them is by itself.
#![tactic(auto)]

use files::Texts;
use report::list_texts;

fn main(rt: HostRuntime) -> anyhow::Result<()> {
    let texts = Texts::read(&rt, rt.alloc())?;
    rt.print(list_texts(&texts.duty, &texts.rule))?;
    Ok(())
}
