//! Laws of requests, stated as contracts of empty functions.

ghost use Rattle.std.specs.Prelude.{◌≡◌, ℕ, ◌<◌, ◌^◌, List};
ghost use Rattle.sf_field.specs.Fields.{AreBytes};
ghost use Rattle.sf_request.specs.declared.request.Asked.{Asked};
ghost use Rattle.sf_request.specs.declared.request.Asked.TheVariants.{Init, Request};
ghost use Rattle.sf_request.specs.declared.request.WireRequest.{WireRequest};
ghost use Rattle.sf_request.specs.Requests.{Asks, RequestFits, request_body, init_body};

/// Every body encodes exactly one thing.
pub fn one_question()
    ensures exists { (body : List ℕ) → AreBytes body → (asked : Asked) × Asks body asked }
    ensures unique { (body : List ℕ) (asked other : Asked) → AreBytes body → Asks body asked
        → Asks body other → asked ≡ other }
{}

/// A request that a client sends decodes to itself, and its INIT decodes to version 3.
pub fn sent_requests()
    ensures request { (id : ℕ) (r : WireRequest) → id < 2 ^ 32 → RequestFits r
        → Asks (request_body id r) (Request id r) }
    ensures init { Asks init_body (Init 3) }
{}
