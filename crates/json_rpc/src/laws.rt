//! Laws of messages: each function has the law as its promise and does nothing.

ghost use Rattle.std.specs.Prelude.{◌≡◌, ◌≢◌, ◌∷◌, ◌++◌, [], ℕ, List, Some};
ghost use Rattle.std.specs.Str.{IsUtf8};
ghost use Rattle.json.specs.Json.{Json};
ghost use Rattle.json.specs.Print.{print};
ghost use Rattle.json.specs.Token.{end_object};
ghost use Rattle.json.specs.Tree.{json_tokens};
ghost use Rattle.json_rpc.specs.Ids.{IdVal, NullId, IsId};
ghost use Rattle.json_rpc.specs.Laws.{IsPart, IsOneValue};
ghost use Rattle.json_rpc.specs.Messages.{Request, Notification, Response, message_of};
ghost use Rattle.json_rpc.specs.Writing.{body, answer, refusal, notification, request, answer_begin, notification_begin, request_begin};
ghost use Rattle.json_rpc.specs.declared.code.Code.{Code};

use crate::id::Id;

/// What is begun, has a value and is ended is the message with this value.
pub fn completed()
    ensures answer { (id : IdVal) (j : Json) →
        print ((answer_begin id ++ json_tokens j) ++ end_object ∷ []) ≡ body (answer id j) }
    ensures notification { (method : List ℕ) (j : Json) →
        print ((notification_begin method ++ json_tokens j) ++ end_object ∷ []) ≡ body (notification method j) }
    ensures request { (id : IdVal) (method : List ℕ) (j : Json) →
        print ((request_begin id method ++ json_tokens j) ++ end_object ∷ []) ≡ body (request id method j) }
{}

/// The number of an id is one of JSON, and an id has at most 128 bytes.
pub fn id(id: &Id<'_>)
    ensures { IsId id.now }
{
    let _name = id.name;
}

/// Each message is one value of JSON, which is read back.
pub fn one_value()
    ensures answer { (id : IdVal) (j : Json) → IsId id → IsPart j → IsOneValue (answer id j) }
    ensures refusal { (id : IdVal) (code : Code) → IsId id → IsOneValue (refusal id code) }
    ensures notification { (method : List ℕ) (j : Json) → IsPart j → IsOneValue (notification method j) }
    ensures request { (id : IdVal) (method : List ℕ) (j : Json) → IsId id → IsPart j →
        IsOneValue (request id method j) }
{}

/// A request is read as this request, a notification as this notification, and an answer and a refusal as a response.
pub fn read_back()
    ensures request { (id : IdVal) (method : List ℕ) (j : Json) → IsId id → id ≢ NullId → IsPart j →
        IsUtf8 (body (request id method j)) →
        message_of (body (request id method j)) ≡ Request id method (Some j) }
    ensures notification { (method : List ℕ) (j : Json) → IsPart j → IsUtf8 (body (notification method j)) →
        message_of (body (notification method j)) ≡ Notification method (Some j) }
    ensures answer { (id : IdVal) (j : Json) → IsId id → IsPart j → IsUtf8 (body (answer id j)) →
        message_of (body (answer id j)) ≡ Response }
    ensures refusal { (id : IdVal) (code : Code) → IsId id → IsUtf8 (body (refusal id code)) →
        message_of (body (refusal id code)) ≡ Response }
{}
