use crate::ladder;
use std::alloc::Global;
use std::test::Fail;

const CLASSES: &str = "connector Pin Real v; flow Real i; end Pin;
partial model TwoPin Pin p; Pin n; Real v; Real i; equation v = p.v - n.v; 0 = p.i + n.i; i = p.i; end TwoPin;
model Resistor extends TwoPin; parameter Real R = 1.0; equation v = R*i; end Resistor;
model Capacitor extends TwoPin; parameter Real C = 1.0; equation i = C*der(v); end Capacitor;
model Source extends TwoPin; parameter Real V = 1.0; equation v = V; end Source;
model Ground Pin p; equation p.v = 0; end Ground;
";

const ONE_RUNG: &str = "model Ladder
  Source s;
  Ground g;
  Resistor r1; Capacitor c1;
equation
  connect(s.n, g.p);
  connect(s.p, r1.p);
  connect(r1.n, c1.p); connect(c1.n, g.p);
end Ladder;
";

const TWO_RUNGS: &str = "model Ladder
  Source s;
  Ground g;
  Resistor r1; Capacitor c1;
  Resistor r2; Capacitor c2;
equation
  connect(s.n, g.p);
  connect(s.p, r1.p);
  connect(r1.n, c1.p); connect(c1.n, g.p);
  connect(r2.n, c2.p); connect(c2.n, g.p);
  connect(r1.n, r2.p);
end Ladder;
";

// The lines of the ladder of n rungs, and its length in bytes.
fn size(alloc: Global, n: u32) -> Result<(usize, usize), Fail> {
    if n < 1 || n > 1000 {
        return Err("n".into());
    }
    let text = ladder(alloc, n)?;
    Ok((text.as_str().lines().count(), text.as_str().len()))
}

#[test]
fn ladders(rt: HostRuntime) -> Result<(), Fail> {
    let alloc = rt.alloc();
    let one = ladder(alloc, 1)?;
    assert_eq!(rt; one.as_str().strip_prefix(CLASSES), Some(ONE_RUNG));
    let two = ladder(alloc, 2)?;
    assert_eq!(rt; two.as_str().strip_prefix(CLASSES), Some(TWO_RUNGS));
    assert_eq!(rt; size(alloc, 2)?.0, 18);
    // six classes, seven lines of the model's own, 1000 of parts, 1000 of rungs, 999 of rails
    assert_eq!(rt; size(alloc, 1000)?.0, 3012);
    Ok(())
}
