// greater1Ctx from bin to bin.
ghost use Rattle.std.specs.Prelude.{◌≡◌, ◌≤◌, eqb};
ghost use Rattle.hevc_residual.specs.SubBlock.{greater1_ctx_next};

pub fn carry_next(b: u32, c: u32) -> u32
    requires { (b ≤ 1) × (c ≤ 3) }
    ensures { (result ≡ greater1_ctx_next (eqb b 1) c) × (result ≤ 3) }
{
    if b == 1 {
        return 0;
    }
    match c {
        1..=2 => c + 1,
        _ => c,
    }
}
