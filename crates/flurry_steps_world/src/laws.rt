//! The law that the finite map of a world's labels is that of the owned map.
ghost use Rattle.std.specs.Prelude.{List};
ghost use Rattle.flurry_base.specs.FiniteMap.{IsFiniteMap};
ghost use Rattle.flurry_base.specs.declared.call.Call.{Call};
ghost use Rattle.flurry_base.specs.declared.reply.KeptReply.{KeptReply};
ghost use Rattle.flurry_steps_theory.specs.Map.{Pairs};
ghost use Rattle.flurry_steps_theory.specs.OneKeyCalls.{HasSamePairs, AgreesOn};

use flurry_bins_slots::ComputeFn;

/// States that the reply of the finite map means the same for the labels of a world as for a caller of the owned map, whichever functions
/// the calls of the world have. Does nothing; its contract is a law.
///
/// If the pairs along the labels are those of a finite map, a one-key call may reply exactly what the finite map may, and both have the
/// same pairs after the call.
pub fn one_key_calls_agree<K: Ord, V, F: ComputeFn<K, V>>()
    ensures { (c : Call K V F) (m : List (K × V)) (n : Pairs K V) (r : KeptReply K V)
        → IsFiniteMap K.cmp m → HasSamePairs K.cmp m n
        → AgreesOn K.cmp F.changes c m n r }
{}
