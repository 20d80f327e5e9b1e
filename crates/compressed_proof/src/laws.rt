ghost use Rattle.compressed_proof.specs.Decoded.{DecodeUndoesEncode};

use proof_laws::written_code_is_read;

/// What `decode` answers to the text that `encode` writes of a code is that code, unless memory runs out.
pub fn decode_undoes_encode()
    ensures { DecodeUndoesEncode }
{
    written_code_is_read();
}
