//! The request files of clients.

ghost use Rattle.std.specs.Prelude.{ℕ, List};
ghost use Rattle.ofx_types.specs.Calendar.{IsMoment};
ghost use Rattle.ofx_types.specs.FileForm.{SpellsFile};
ghost use Rattle.ofx_types.specs.PrintedFile.{file_text};
ghost use Rattle.ofx_types.specs.declared.number.Moment.{Moment};
ghost use Rattle.ofx_types.specs.declared.request.RequestFile.{RequestFile};
ghost use Rattle.bank_model.specs.Sound.{IsSound};
ghost use Rattle.msg_mail.specs.SignonsAsDocuments.{IsSoundSignon};

use ofx_file::laws::files_read_back;

/// Each request file that may be handed to a bank, written at a moment of the years 1900 to 9999 with a user's name of 1 to
/// 32 bytes and a password of 1 to 64, reads back as it was.
pub fn requests_read_back()
    ensures { (file : RequestFile) (at : Moment) → IsSound file → IsSoundSignon file.user file.pass at
        → SpellsFile (file_text file at) file }
{
    files_read_back();
}

/// The user's name and the password of a file that bytes spell are such.
pub fn spelled_files_have_signons()
    ensures { (bytes : List ℕ) (file : RequestFile) (at : Moment) → SpellsFile bytes file → IsMoment at.0
        → IsSoundSignon file.user file.pass at }
{}
