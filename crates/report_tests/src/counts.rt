// 512 nodes are the most. The verdicts and the counts come from tests/compare_verdicts.py, which finds the verdicts by the
// effects of words on the charts, and counts the nodes by the sets of tests/ranked_graph.py.
use crate::printed::{reports, tells};
use std::test::Fail;

// The rule takes all that the duty takes of the first pair and the third, and not of the others.
#[test]
fn most_nodes(rt: HostRuntime) -> Result<(), Fail> {
    let full = "refused at place\n13 bench 0\n";
    let cases = [
        (
            "letters\n2\nstate start mark\n0 > .\n1 . .\n2 . *\nfrom by to\n0 # 2\n0 a 1\n0 b 0\n1 b 0\n2 a 1\n",
            "letters\n2\nstate start mark\n0 > .\n1 . *\n2 . *\nfrom by to\n0 a 1\n0 b 0\n0 b 2\n1 # 1\n2 b 0\n2 b 1\n",
            "verdict nodes\nkeep 512\n",
        ),
        (
            "letters\n2\nstate start mark\n0 > .\n1 . *\n2 . *\nfrom by to\n0 a 0\n0 b 1\n0 b 2\n1 b 2\n2 a 0\n2 a 1\n2 b 2\n",
            "letters\n2\nstate start mark\n0 > *\n1 . .\n2 . .\nfrom by to\n0 a 1\n0 a 2\n1 a 2\n1 b 1\n2 a 2\n2 b 0\n",
            "verdict nodes\nbreak 512\n",
        ),
        (
            "letters\n2\nstate start mark\n0 > .\n1 . .\n2 . *\nfrom by to\n0 a 0\n0 a 1\n0 b 2\n1 b 0\n2 a 0\n2 b 1\n",
            "letters\n2\nstate start mark\n0 > *\n1 . *\n2 . *\nfrom by to\n0 a 2\n0 b 0\n1 a 0\n1 a 2\n1 b 0\n1 b 1\n2 a 1\n2 a 2\n2 b 1\n",
            full,
        ),
        (
            "letters\n2\nstate start mark\n0 > *\n1 . .\n2 . *\nfrom by to\n0 a 1\n1 a 2\n1 b 1\n2 b 1\n",
            "letters\n2\nstate start mark\n0 > .\n1 . *\n2 . .\nfrom by to\n0 a 2\n1 a 0\n1 a 2\n1 b 1\n1 b 2\n2 a 0\n2 a 1\n2 a 2\n",
            full,
        ),
    ];
    for (duty, rule, printed) in cases {
        reports(&rt, rt.alloc(), duty, rule, printed)?;
    }
    let (duty, rule, printed) = cases[3];
    tells(&rt, rt.alloc(), duty, rule, printed)
}
