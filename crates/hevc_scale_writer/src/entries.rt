// The entry point: a scale as bins. It takes anything: what is not accepted is answered by its number.
ghost use Rattle.std.specs.Prelude.{◌≡◌};
ghost use Rattle.hevc_cross.specs.Entries.{write_bins};
ghost use Rattle.hevc_scale.specs.EntriesAgree.{bins_written};
ghost use Rattle.hevc_scale_writer.specs.Demand3.{Exactly};

use crate::write::{put_scale, value};
use cabac_checks::checks::passed;
use hevc_residual::answers::Written;
use hevc_scale::entries::component_refusal;
use level_sizes::sizes::is_negative;
use pen::room::Pen;

// The one list that reads as the scale. The room is counted out before anything is written.
pub fn write_scale_bins(component: u32, scale: i32, room: &mut [u8]) -> Written
    ensures { (bins_written result room.new ≡ write_bins component scale room.old) × Exactly component scale room.old result room.new }
{
    passed(component_refusal(component))?;
    let Some(v) = value(scale) else {
        return Err(4);
    };
    let sign = is_negative(scale);
    let count = Pen {
        at: 0,
        over: false,
        writing: false,
    };
    let counted = put_scale(room, count, component as usize, v, sign);
    if counted.over {
        return Err(12);
    }
    let write = Pen {
        at: 0,
        over: false,
        writing: true,
    };
    let written = put_scale(room, write, component as usize, v, sign);
    Ok(written.at)
}
