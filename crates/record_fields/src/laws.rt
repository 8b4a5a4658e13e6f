//! Laws of single fields. Nothing here runs: each contract is a law of the coding and of reading.

ghost use Rattle.std.specs.Prelude.{ℕ, ◌<◌, ◌≤◌, ◌^◌, FitsSigned, IfSome, length};
ghost use Rattle.std.specs.Int.{w32, w64};
ghost use Rattle.ofx_types.specs.TextRules.{IsText, IsTrnUid, IsFileUid};
ghost use Rattle.bank_model.specs.Sound.{IsSoundAccount, IsSoundRecur, IsSoundMail};
ghost use Rattle.record_fields.specs.FieldCoding.{u8_bytes, u16_bytes, u32_bytes, u64_bytes, i32_bytes, i64_bytes, flag_bytes, text_bytes, uid_bytes, file_uid_bytes, acct_bytes, recur_bytes, mail_bytes};
ghost use Rattle.record_fields.specs.FieldReading.{u8_at, u16_at, u32_at, u64_at, i32_at, i64_at, flag_at, text_at, trnuid_at, file_uid_at};
ghost use Rattle.record_fields.specs.PartReading.{acct_at, recur_at, mail_at};
ghost use Rattle.record_fields.specs.Fields.{IsField};

/// Numbers are read as they are written.
pub fn numbers_read_back()
    ensures u8 { IsField u8_at u8_bytes (λ n. n < 2 ^ 8) }
    ensures u16 { IsField u16_at u16_bytes (λ n. n < 2 ^ 16) }
    ensures u32 { IsField u32_at u32_bytes (λ n. n < 2 ^ 32) }
    ensures u64 { IsField u64_at u64_bytes (λ n. n < 2 ^ 64) }
    ensures i32 { IsField i32_at i32_bytes (FitsSigned w32) }
    ensures i64 { IsField i64_at i64_bytes (FitsSigned w64) }
    ensures flag { IsField flag_at flag_bytes (λ flag. Unit {0}) }
{}

/// Texts and uids are read as they are written.
pub fn texts_read_back()
    ensures text { (most : ℕ) → most < 2 ^ 16 → IsField (text_at most) text_bytes (λ text. (length text ≤ most) × IsText text) }
    ensures trnuid { IsField trnuid_at uid_bytes IsTrnUid }
    ensures file_uid { IsField file_uid_at file_uid_bytes (λ uid. IfSome uid IsFileUid) }
{}

/// Accounts, series and mails are read as they are written.
pub fn parts_read_back()
    ensures acct { IsField acct_at acct_bytes IsSoundAccount }
    ensures recur { IsField recur_at recur_bytes IsSoundRecur }
    ensures mail { IsField mail_at mail_bytes IsSoundMail }
{}
