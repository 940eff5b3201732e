// The functions that a program in C links; include/spoonglacier.h declares them. Each is the one of
// its name in `spoonglacier`, with the same clauses.
#![tactic(auto)]

ghost use Rattle.fixed.specs.Fixed.{from_bits};
ghost use Rattle.script.specs.Script.{script_of};
ghost use Rattle.writer.specs.ToWrite.{given};
ghost use Rattle.writer.specs.ParamWords.{params_in};
ghost use Rattle.writer.specs.Refusals.{write_of};
ghost use Rattle.overlay.specs.Seen.{seen_of};
ghost use Rattle.labels.specs.Labels.{label, labels_of};
ghost use Rattle.spoonglacier.specs.Exported.{Returned, WriteReturned, EdgesReturned, LabelsReturned};

// Runs a script into a lent output; answers 01's number, and leaves its place behind the last
// pointer.
#[unsafe(no_mangle)]
pub extern "C" fn spoonglacier_run(script: &[u8], out: &mut [i32], place: &mut usize) -> u32
    ensures { Returned (script_of script.now out.old) result out.new place.new }
{
    spoonglacier::spoonglacier_run(script, out, place)
}

// Writes a script into a lent buffer; answers the writer's number, and leaves the bytes that were
// written and the place behind the last two pointers.
#[unsafe(no_mangle)]
pub extern "C" fn spoonglacier_write(
    scale: i32,
    params: &[i32],
    commands: &[i32],
    masks: &[u8],
    script: &mut [u8],
    written: &mut usize,
    place: &mut usize,
) -> u32
    ensures { WriteReturned
        (write_of (given (from_bits scale) (params_in params.now) commands.now masks.now) script.old)
        result script.new written.new place.new }
{
    spoonglacier::spoonglacier_write(scale, params, commands, masks, script, written, place)
}

// Lists the edges of the map that a script has after its first so many commands, six words a
// record; answers the look's number, and leaves the summary's four counts and the place behind the
// last five pointers.
#[unsafe(no_mangle)]
pub extern "C" fn spoonglacier_edges(
    script: &[u8],
    commands: usize,
    list: &mut [i32],
    edges: &mut usize,
    pairs: &mut usize,
    ghosts: &mut usize,
    locked: &mut usize,
    place: &mut usize,
) -> u32
    ensures { EdgesReturned (seen_of script.now commands list.old)
        result list.new edges.new pairs.new ghosts.new locked.new place.new }
{
    spoonglacier::spoonglacier_edges(script, commands, list, edges, pairs, ghosts, locked, place)
}

// Hints the glyphs of a label into one result; answers the label run's number, and leaves the words
// of the result, the glyph and the place behind the last three pointers.
#[unsafe(no_mangle)]
pub extern "C" fn spoonglacier_labels(
    scale: i32,
    params: &[i32],
    commands: &[i32],
    masks: &[u8],
    lengths: &[i32],
    out: &mut [i32],
    written: &mut usize,
    glyph: &mut usize,
    place: &mut usize,
) -> u32
    ensures { LabelsReturned
        (labels_of (label (from_bits scale) (params_in params.now) commands.now masks.now lengths.now) out.old)
        result out.new written.new glyph.new place.new }
{
    spoonglacier::spoonglacier_labels(
        scale, params, commands, masks, lengths, out, written, glyph, place,
    )
}
